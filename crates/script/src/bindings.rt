//! What the names of a script stand for.
#![tactic(auto, using(std::proofs::lemmas::Map::Text::text_keys))]

ghost use Rattle.std.proofs.Props.{props};
ghost use Rattle.std.specs.BTreeMap.{IsOrdered};
ghost use Rattle.std.specs.String.{string_cmp};

use crate::binding::{Binding, BoundUnit};
use crate::mistake::Mistake;
use any_drawing::AnyDrawing;
use std::alloc::Global;
use std::collections::BTreeMap;

/// What names stand for: each for one thing, or for nothing.
#[derive(Drop)]
pub struct ByName<T> {
    map: BTreeMap<String, T>,
    ghost lawful: { IsOrdered string_cmp map } by { Prim.hlevel props },
}

/// Each name stands for one drawing or unit, or for nothing. What it is is a parameter of the type: that names may go to another thread,
/// and be shared with one, is then proved once, for things of any kind, and a check finds it of a session.
pub type Bindings = ByName<Binding>;

impl ByName<Binding> {
    ghost use Rattle.script.specs.declared.mistake.Mistake.TheVariants.{UnknownName, NoMemory};
    ghost use Rattle.script.specs.Bindings.{binding_of, IsEmpty, Binds, SameBindings, BindsDrawing};
    ghost use Rattle.script.specs.Bindings.{BindsUnit, Unbinds, TakesTwo};
    ghost use Rattle.script.specs.Refusals.{drawing_refusal, unit_refusal, join_refusal};
    ghost use Rattle.any_drawing.specs.declared.AnyDrawing.{AnyDrawing};
    ghost use Rattle.std.specs.Prelude.{◌≡◌, Some, None, string_bytes, MatchResult};

    /// No name stands for anything.
    pub fn new(heap: Global) -> Bindings
        ensures { IsEmpty result }
    {
        ByName {
            map: BTreeMap::new(heap),
        }
    }

    /// Lets no name stand for anything.
    pub fn clear(&mut self)
        ensures { IsEmpty self.new }
    {
        self.map.clear();
    }

    /// What the name stands for.
    pub fn get(&self, name: &str) -> Result<&Binding, Mistake>
        ensures { MatchResult result (λ x. binding_of self.now name.now ≡ Some x.now)
            (λ e. (e ≡ UnknownName) × (binding_of self.now name.now ≡ None)) }
    {
        self.map.get(name).ok_or(Mistake::UnknownName)
    }

    /// Lets the name stand for this, and no longer for what it stood for.
    pub fn bind(&mut self, name: String, binding: Binding) -> Result<(), Mistake>
        ensures { MatchResult result (λ _. Binds self.old self.new (string_bytes name) binding)
            (λ e. (e ≡ NoMemory) × SameBindings self.old self.new) }
    {
        self.map.insert(name, binding)?;
        Ok(())
    }

    /// The drawing that the name stands for.
    pub fn drawing(&self, name: &str) -> Result<&AnyDrawing, Mistake>
        ensures { MatchResult result (λ d. BindsDrawing self.now name.now d.now)
            (λ e. drawing_refusal (binding_of self.now name.now) ≡ Some e) }
    {
        match self.get(name)? {
            Binding::Drawing(drawing) => Ok(drawing),
            Binding::SealedUnit(_) => Err(Mistake::NotADrawing),
        }
    }

    /// The unit that the name stands for.
    pub fn unit(&self, name: &str) -> Result<&BoundUnit, Mistake>
        ensures { MatchResult result (λ u. BindsUnit self.now name.now u.now)
            (λ e. unit_refusal (binding_of self.now name.now) ≡ Some e) }
    {
        match self.get(name)? {
            Binding::Drawing(_) => Err(Mistake::NotAUnit),
            Binding::SealedUnit(bound) => Ok(&**bound),
        }
    }

    // Gives away the drawing that the name stands for, which then stands for nothing.
    fn remove(&mut self, name: &str) -> AnyDrawing
        requires { (d : AnyDrawing) × BindsDrawing self.old name.now d }
        ensures stood { BindsDrawing self.old name.now result }
        ensures unbound { Unbinds self.old self.new name.now }
    {
        match self.map.remove(name) {
            Some(Binding::Drawing(drawing)) => drawing,
            _ => unreachable(),
        }
    }

    /// The drawing that the name stands for, which is used up.
    pub fn take(&mut self, name: &str) -> Result<AnyDrawing, Mistake>
        ensures { MatchResult result
            (λ d. BindsDrawing self.old name.now d × Unbinds self.old self.new name.now)
            (λ e. (drawing_refusal (binding_of self.old name.now) ≡ Some e) × SameBindings self.old self.new) }
    {
        let _ = self.drawing(name)?;
        Ok(self.remove(name))
    }

    /// The drawings that the two names stand for, both used up. A drawing cannot be used twice.
    pub fn take_two(&mut self, left: &str, right: &str) -> Result<(AnyDrawing, AnyDrawing), Mistake>
        ensures { MatchResult result (λ d. TakesTwo self.old self.new left.now right.now d.0 d.1)
            (λ e. (join_refusal self.old left.now right.now ≡ Some e) × SameBindings self.old self.new) }
    {
        if left == right {
            return Err(Mistake::UsedTwice);
        }
        let _ = self.drawing(right)?;
        let first = self.take(left)?;
        Ok((first, self.remove(right)))
    }
}
