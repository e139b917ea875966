//! Lists of items.
ghost use Rattle.std.specs.Prelude.{◌≡◌, codes};

use std::fmt;

/// The items with a mark between each two, or the word for none. A slice, since `fmt` cannot require of an iterator of any type that
/// it may be called and ends.
#[derive(Drop)]
pub struct Listed<'a, T> {
    pub items: &'a [T],
    pub mark: &'a str,
    pub none: &'a str,
}

impl<'a, T> Listed<'a, T> {
    /// Packed, with a hyphen for none.
    pub fn for_programs(items: &'a [T]) -> Listed<'a, T>
        ensures items { result.items.now ≡ items.now }
        ensures mark { result.mark.now ≡ codes "," }
        ensures none { result.none.now ≡ codes "-" }
    {
        Listed {
            items,
            mark: ",",
            none: "-",
        }
    }

    /// Spaced, with a word for none.
    pub fn for_people(items: &'a [T]) -> Listed<'a, T>
        ensures items { result.items.now ≡ items.now }
        ensures mark { result.mark.now ≡ codes ", " }
        ensures none { result.none.now ≡ codes "nothing" }
    {
        Listed {
            items,
            mark: ", ",
            none: "nothing",
        }
    }
}

impl<T: fmt::Display> fmt::Display for Listed<'_, T> {
    fn fmt<W: fmt::Write>(&self, f: &mut fmt::Formatter<W>) -> fmt::Result {
        let Some((first, rest)) = self.items.split_first() else {
            return f.write_str(self.none);
        };
        write!(f, "{first}")?;
        for item in rest {
            write!(f, "{}{item}", self.mark)?;
        }
        Ok(())
    }
}
