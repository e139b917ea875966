//! A table of limited length, kept in place.
ghost use Rattle.std.specs.Prelude.{◌≡◌, ⊤, length};

use std::alloc::AllocError;
use std::array::from_fn;

/// An item for each number below N.
#[derive(Debug)]
pub struct ByNumber<T, const N: usize> {
    items: [T; N],
    ghost full: { length items ≡ N },
}

// By hand: `Clone` cannot be derived where a type has ghost fields and a parameter.
impl<T: Copy, const N: usize> Clone for ByNumber<T, N> {
    ghost is_clone = { λ table copy. copy ≡ table };

    ghost is_infallible = { λ _. ⊤ };

    fn clone(&self) -> Result<ByNumber<T, N>, AllocError> {
        Ok(*self)
    }
}

impl<T: Copy, const N: usize> Copy for ByNumber<T, N> {}

impl<T: Copy, const N: usize> ByNumber<T, N> {
    ghost use Rattle.std.specs.Prelude.{◌≡◌, ◌<◌, ◌≤◌, ℕ, slice_index_or};

    /// The same item for each number.
    pub fn all(item: T) -> ByNumber<T, N>
        ensures { (n : ℕ) (d : T) → n < N → slice_index_or result.items n d ≡ item }
    {
        ByNumber { items: [item; N] }
    }

    /// What the closure gives for each number.
    pub fn gather<F: Fn(u8) -> T>(item: F) -> ByNumber<T, N>
        requires small { N ≤ 256 }
        requires callable { (k : ℕ) → k < N → F.pre item k }
        ensures { (n : ℕ) (d : T) → n < N → F.post item n (slice_index_or result.items n d) }
    {
        let bound = N;
        ByNumber {
            items: from_fn(
                |number|
                    requires below { number < bound }
                    requires small { bound ≤ 256 }
                    requires callable { (k : ℕ) → k < bound → F.pre item k }
                {
                    prove!(number < bound);
                    item(number as u8)
                },
            ),
        }
    }

    /// The item of the number; for a number that is not below N, the absent one.
    pub fn get_or(&self, number: u8, absent: T) -> T
        ensures { result ≡ slice_index_or self.now.items number absent }
    {
        let place = number as usize;
        if place < N { self.items[place] } else { absent }
    }

    /// The items, by number.
    pub fn items(self) -> [T; N]
        ensures { result ≡ self.items }
    {
        self.items
    }
}
