//! Sets of names, each written as four bytes.
ghost use Rattle.language.specs.Tables.{TableVariable, names_own, names_variables, set_item};
ghost use Rattle.table.specs.Reads.{Reads};
ghost use Rattle.table.specs.Sets.{Judges, NamesOf, passes_in};
ghost use Rattle.table.specs.Variables.{AreVariables};
ghost use Rattle.table.specs.declared.variables.Variable.{Variable};
ghost use Rattle.model.specs.Sets.{has};
ghost use Rattle.model.specs.Tests.{every, count};
ghost use Rattle.std.specs.Fn.{FnReturnsAt};
ghost use Rattle.std.specs.Prelude.{◌≡◌, ℕ, Bool, List};

use crate::reader::Reader;
use crate::variables::{Variable, Variables};
use language::Rule;
use model::{Fault, Kind, Names, all_below, count_below};

// The names in the set that the number stands for: name n where bit n is 1.
fn names_of(word: u32) -> Names
    ensures { NamesOf word result }
{
    Names::gather(|name| (word >> name) % 2 == 1)
}

/// How many names are in the set.
pub fn count(names: &Names) -> u8
    ensures { result ≡ count (has names.now) 32 }
{
    count_below(32, |name| names.has(name))
}

// Does each name of the set stand for a variable that passes the test?
fn all_pass<F: Fn(Variable) -> bool>(variables: &Variables, names: &Names, test: F) -> bool
    requires { F.IsAlwaysCallable test }
    ensures { (p : Variable → Bool) → ((v : Variable) (b : Bool) → F.post test v b → b ≡ p v) →
        result ≡ every (passes_in p variables.now names.now) 32 }
{
    all_below(32, |name| {
        !names.has(name) || variables.at(name).is_some_and(|variable| test(variable))
    })
}

/// Does each name of the set stand for a variable?
pub fn are_known(variables: &Variables, names: &Names) -> bool
    ensures { (vs : List TableVariable) (w : ℕ) → AreVariables vs variables.now → NamesOf w names.now →
        result ≡ names_variables vs w }
{
    all_pass(variables, names, |_| true)
}

/// Is there a name in the set, and does each stand for a variable that is not external?
pub fn are_own(variables: &Variables, names: &Names) -> bool
    ensures { (vs : List TableVariable) (w : ℕ) → AreVariables vs variables.now → NamesOf w names.now →
        result ≡ names_own vs w }
{
    count(names) > 0
        && all_pass(variables, names, |variable| {
            matches!(variable.kind, Kind::Private | Kind::Interface)
        })
}

impl Reader<'_> {
    /// A set of names that passes the test.
    pub fn set<F: Fn(&Names) -> bool>(&mut self, test: F) -> Result<Names, Fault>
        requires { F.IsAlwaysCallable test }
        ensures { (p : ℕ → Bool) → Judges (FnReturnsAt F.Fn test) p →
            Reads NamesOf (set_item p) self.old self.new result }
    {
        let place = self.place();
        let names = names_of(self.word()?);
        if test(&names) {
            Ok(names)
        } else {
            Err(Rule::WrongAtom.broken_at(usize::from(place)))
        }
    }
}
