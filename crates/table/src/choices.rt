//! The choices of an atom in one kind of round.
ghost use Rattle.expression.specs.Checking.{seen_of};
ghost use Rattle.language.specs.Tables.{between, byte_item, many, read_choice};
ghost use Rattle.table.specs.Layouts.{AreChoicesAt};
ghost use Rattle.model.specs.Meanings.{most_choices};
ghost use Rattle.table.specs.Reads.{Passes, Reads, Tells};
ghost use Rattle.std.specs.Prelude.{◌≡◌, ◌≤◌};

use crate::parts::Places;
use crate::reader::Reader;
use expression::Seen;
use language::Rule;
use model::{Fault, Round, Row};

// The most choices that an atom may have in a round of this kind.
fn most_choices(round: Round) -> u8
    ensures { result ≡ most_choices round }
{
    match round {
        Round::Initial => 8,
        Round::Update => 8,
    }
}

impl Reader<'_> {
    /// How many choices an atom has in a round of this kind.
    pub fn choice_count(&mut self, round: Round) -> Result<u8, Fault>
        ensures { Tells (byte_item Rule.WrongAtom (between 1 (most_choices round))) self.old self.new result }
    {
        self.byte_between(Rule::WrongAtom, 1, most_choices(round))
    }

    // A guard, and a number for each controlled name.
    #[tactic(auto, unfolding(language::specs::Tables::read_choice))]
    fn choice(&mut self, seen: &Seen, controlled: u8) -> Result<(), Fault>
        ensures { Passes (read_choice (seen_of seen.now) controlled) self.old self.new result }
    {
        self.truth(seen)?;
        self.numbers(seen, controlled)
    }

    /// Where so many choices begin.
    pub fn choices(&mut self, seen: &Seen, controlled: u8, count: u8) -> Result<Places, Fault>
        requires { count ≤ 8 }
        ensures { let sees = seen_of seen.now in
            let laid = AreChoicesAt self.old.bytes.now self.old.place sees controlled in
            Reads laid (many (read_choice sees controlled) count) self.old self.new result }
    {
        let mut places = Row::empty(0);
        for _ in 0..count {
            let place = self.place();
            self.choice(seen, controlled)?;
            places.push(place).unwrap();
        }
        Ok(places)
    }
}
