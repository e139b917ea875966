//! A list of limited length, kept in place: no heap is needed for it. The library's own such list cannot be copied.
ghost use Rattle.std.specs.Prelude.{◌≡◌, ◌≤◌, ⊤, length};

use std::alloc::AllocError;
use std::error::Error;
use std::fmt;

/// There is no room for another item.
#[derive(Clone, Copy, PartialEq, Eq, Debug)]
pub struct Full;

impl fmt::Display for Full {
    ghost use Rattle.std.specs.Prelude.{Some, codes};

    ghost output = { λ _. Some (codes "there is no room for another item") };

    fn fmt<W: fmt::Write>(&self, f: &mut fmt::Formatter<W>) -> fmt::Result {
        f.write_str("there is no room for another item")
    }
}

impl Error for Full {}

/// At most N items, which stand first in an array; what stands behind them means nothing.
#[derive(Debug)]
pub struct Row<T, const N: usize> {
    items: [T; N],
    count: usize,
    ghost full: { length items ≡ N },
    ghost few: { count ≤ N },
}

// By hand: `Clone` cannot be derived where a type has ghost fields and a parameter.
impl<T: Copy, const N: usize> Clone for Row<T, N> {
    ghost is_clone = { λ row copy. copy ≡ row };

    ghost is_infallible = { λ _. ⊤ };

    fn clone(&self) -> Result<Row<T, N>, AllocError> {
        Ok(*self)
    }
}

impl<T: Copy, const N: usize> Copy for Row<T, N> {}

impl<T: Copy, const N: usize> Row<T, N> {
    ghost use Rattle.std.specs.Prelude.{◌≡◌, ◌≤◌, [], length};
    ghost use Rattle.model.specs.Rows.{row_items, Filled, Pushed};

    /// No items. The blank fills the places that none takes.
    pub fn empty(blank: T) -> Row<T, N>
        ensures { row_items result ≡ [] }
    {
        Row {
            items: [blank; N],
            count: 0,
        }
    }

    /// These items, if there is room for them. The blank fills the places that none takes.
    pub fn from_slice(items: &[T], blank: T) -> Result<Row<T, N>, Full>
        ensures { Filled items.now result }
    {
        if items.len() > N {
            return Err(Full);
        }
        let mut row = [blank; N];
        row[..items.len()].copy_from_slice(items);
        Ok(Row {
            items: row,
            count: items.len(),
        })
    }

    /// Adds an item at the end, if there is room.
    pub fn push(&mut self, item: T) -> Result<(), Full>
        ensures { Pushed N (row_items self.old) item (row_items self.new) result }
    {
        if self.count == N {
            return Err(Full);
        }
        self.items[self.count] = item;
        self.count += 1;
        Ok(())
    }

    pub fn as_slice(&self) -> &[T]
        ensures items { result.now ≡ row_items self.now }
        ensures few { length result.now ≤ N }
    {
        &self.items[..self.count]
    }
}
