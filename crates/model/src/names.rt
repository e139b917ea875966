//! Sets of numbers below a bound, kept in place: for each number, whether it is in the set. An array by number and no list: it takes
//! no heap, and is asked for a number without a search. Sets of names and sets of atoms are of this kind.
ghost use Rattle.std.specs.Prelude.{◌≡◌, length};

use std::array::from_fn;
use std::ops::Range;

/// Which of the numbers below N are in the set.
#[derive(Clone, Copy, PartialEq, Eq, Debug)]
pub struct Marks<const N: usize> {
    marks: [bool; N],
    ghost full: { length marks ≡ N },
}

/// A set of names, 0 to 31.
pub type Names = Marks<32>;

/// A set of atoms, by their numbers, 0 to 15.
pub type Atoms = Marks<16>;

impl<const N: usize> Marks<N> {
    ghost use Rattle.std.specs.Prelude.{◌≡◌, ◌<◌, ◌≤◌, ℕ, Bool, false, ◌||◌, ◌&&◌, nat_lt};
    ghost use Rattle.model.specs.Sets.{has, is_number, members, members_left};
    ghost use Rattle.model.specs.Tests.{Answers};

    /// The empty set.
    pub fn none() -> Marks<N>
        ensures { (n : ℕ) → has result n ≡ false }
    {
        Marks { marks: [false; N] }
    }

    /// The set with one number more. A number that is not below N adds nothing.
    pub fn with(self, number: u8) -> Marks<N>
        ensures { (n : ℕ) → has result n ≡ (has self.entry n || is_number N number n) }
    {
        let mut marks = self.marks;
        let place = number as usize;
        if place < N {
            marks[place] = true;
        }
        Marks { marks }
    }

    /// The numbers below N at which the test passes.
    pub fn gather<F: Fn(u8) -> bool>(test: F) -> Marks<N>
        requires small { N ≤ 256 }
        requires callable { (k : ℕ) → k < N → F.pre test k }
        ensures { (p : ℕ → Bool) → Answers (F.post test) p N → (n : ℕ) → has result n ≡ (nat_lt n N && p n) }
    {
        let bound = N;
        Marks {
            marks: from_fn(
                |number|
                    requires below { number < bound }
                    requires small { bound ≤ 256 }
                    requires callable { (k : ℕ) → k < bound → F.pre test k }
                {
                    prove!(number < bound);
                    test(number as u8)
                },
            ),
        }
    }

    /// Is the number in the set? One that is not below N never is.
    pub fn has(&self, number: u8) -> bool
        ensures { result ≡ has self.now number }
    {
        let place = number as usize;
        place < N && self.marks[place]
    }
}

impl Names {
    ghost use Rattle.std.specs.Prelude.{◌≡◌};
    ghost use Rattle.model.specs.Sets.{members, members_left};

    /// The names of the set, rising.
    pub fn iter(&self) -> Members<'_>
        ensures { members_left result ≡ members self.now }
    {
        Members {
            set: self,
            left: 0..32,
        }
    }
}

/// The names of a set that are still to come: those in `left`, rising.
#[derive(Drop)]
pub struct Members<'a> {
    set: &'a Names,
    left: Range<u8>,
}

impl Iterator for Members<'_> {
    ghost use Rattle.model.specs.Sets.{members_left};
    ghost use Rattle.std.specs.Iterator.{YieldsFirst, item_count};

    type Item = u8;

    ghost next_gives = { YieldsFirst members_left };

    ghost remaining = { item_count members_left };

    fn next(&mut self) -> Option<u8> {
        let set = self.set;
        self.left.find(|name| set.has(*name))
    }
}
