//! The claims on a unit.
ghost use Rattle.std.specs.Borrow.{sem};
ghost use Rattle.std.specs.Prelude.{◌≡◌, ◌∷◌, [], is_some, true};
ghost use Rattle.model.specs.Rows.{row_items};
ghost use Rattle.expression.specs.Checking.{seen_of};
ghost use Rattle.unit.specs.Truths.{is_truth};
ghost use Rattle.units.specs.Units.{claim_sight};

use arrayvec::ArrayVec;
use expression::{Seen, check_truth, truth_value};
use model::{Drawing, Names, Row, State};

/// What evidence has shown of a claim.
#[derive(Clone, Copy, PartialEq, Eq, Debug)]
pub enum Mark {
    Open,
    Held,
    Broken,
}

/// A claim as it was written, one truth of at most 64 bytes that sees the values of a state as old ones; and its mark.
#[derive(Clone, Copy)]
pub struct Claim {
    bytes: Row<u8, 64>,
    mark: Mark,
    ghost right: { is_truth (row_items bytes) ≡ true },
}

// The byte that is always true, by itself.
fn always() -> Row<u8, 64>
    ensures { row_items result ≡ 21 ∷ [] }
{
    let mut bytes = Row::empty(0);
    let _ = bytes.push(21);
    bytes
}

// What the places of a table hold that no claim takes: a claim that is always true.
impl Default for Claim {
    fn default() -> Claim {
        Claim {
            bytes: always(),
            mark: Mark::Open,
        }
    }
}

fn is_variable<D: Drawing>(drawing: &D, name: u8) -> bool
    ensures { result ≡ is_some ((D.Drawing.meaning drawing.now).outline.kind name) }
{
    drawing.kind(name).is_some()
}

// The names that a claim may use: the old values of the drawing's variables.
fn claim_names<D: Drawing>(drawing: &D) -> Seen
    ensures { seen_of result ≡ claim_sight (D.Drawing.meaning drawing.now) }
{
    Seen {
        old: Names::gather(|name| is_variable(drawing, name)),
        new: Names::none(),
    }
}

impl Claim {
    ghost use Rattle.std.specs.Prelude.{IfSome};
    ghost use Rattle.std.specs.Option.{option_map};
    ghost use Rattle.unit.specs.Claims.{claim_made, claim_of};
    ghost use Rattle.units.specs.Units.{claim_reading, holds};

    /// The claim that the bytes make on a drawing's module, with its mark open; None where they are not one truth of 1 to 64 bytes
    /// and at most eight levels that sees old values of the module's variables alone.
    pub fn on<D: Drawing>(drawing: &D, bytes: &[u8]) -> Option<Claim>
        ensures made { option_map claim_of result ≡ claim_made (claim_reading (D.Drawing.meaning drawing.now) bytes.now) }
        ensures written { IfSome result (λ claim. row_items claim.bytes ≡ bytes.now) }
    {
        let row = Row::from_slice(bytes, 0).ok()?;
        check_truth(bytes, &claim_names(drawing)).ok()?;
        Some(Claim {
            bytes: row,
            mark: Mark::Open,
        })
    }

    /// Does the claim hold in this state?
    pub fn holds(&self, state: State) -> bool
        ensures { result ≡ holds (claim_of self.now) state }
    {
        truth_value(self.bytes.as_slice(), state, [0; 32])
    }
}

/// The claims by number, at most eight, in a table that takes no heap.
#[derive(Drop)]
pub struct Claims {
    table: ArrayVec<Claim, 8>,
}

impl Claims {
    ghost use Rattle.std.specs.Prelude.{◌++◌, false, length, nat_le, option_copied, slice_get};
    ghost use Rattle.unit.specs.Claims.{ClaimLent, LendsClaim, claims_of, mark_of, written_claims};
    ghost use Rattle.units.specs.Units.{claims_marked};

    pub fn none() -> Claims
        ensures { result.table.items ≡ [] }
    {
        Claims {
            table: ArrayVec::new(),
        }
    }

    /// The claim with this number, if there is one.
    pub fn get(&self, number: u8) -> Option<&Claim>
        ensures { option_copied result ≡ slice_get self.now.table.items number }
    {
        self.table.as_slice().get(usize::from(number))
    }

    /// The claim with this number, lent for change; None where there is no such claim.
    pub fn claim_mut(&mut self, number: u8) -> Option<&mut Claim>
        ensures* writes_back { sem 𝓛 (LendsClaim self.entry number result) }
        ensures lent { ClaimLent self.old number result }
    {
        self.table.get_mut(usize::from(number))
    }

    pub fn is_full(&self) -> bool
        ensures { result ≡ nat_le 8 (length (claims_of self.now)) }
    {
        self.table.is_full()
    }

    /// Adds a claim behind the others, and answers its number.
    pub fn add(&mut self, claim: Claim) -> u8
        requires { nat_le 8 (length (claims_of self.old)) ≡ false }
        ensures number { result ≡ length (claims_of self.old) }
        ensures added { self.new.table.items ≡ self.old.table.items ++ claim ∷ [] }
    {
        let number = self.table.len() as u8;
        self.table.push(claim);
        number
    }

    /// Sets the mark of the claim with this number, where it stands. Without such a claim nothing changes.
    pub fn mark(&mut self, number: u8, mark: Mark)
        ensures marked { claims_of self.new ≡ claims_marked number (mark_of mark) (claims_of self.old) }
        ensures written { written_claims self.new ≡ written_claims self.old }
    {
        if let Some(claim) = self.claim_mut(number) {
            claim.mark = mark;
        }
    }
}
