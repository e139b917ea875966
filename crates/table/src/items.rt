//! Items of a table's choice: each a byte with a length, and as many bytes after it.
ghost use Rattle.std.specs.Prelude.{◌≤◌, length};
ghost use Rattle.table.specs.Items.{after_item};

/// An item that lies within the bytes.
#[derive(Clone, Copy)]
pub struct Item<'a> {
    bytes: &'a [u8],
    place: usize,
    ghost inside: { after_item bytes.now place ≤ length bytes.now },
}

impl<'a> Item<'a> {
    ghost use Rattle.std.specs.Prelude.{◌≡◌, ℕ};
    ghost use Rattle.table.specs.Items.{item_bytes, item_place};
    ghost use Rattle.table.specs.Stands.{StandsAt};

    /// The item that stands at this place.
    pub fn at(bytes: &'a [u8], place: usize) -> Item<'a>
        requires { after_item bytes.now place ≤ length bytes.now }
        ensures { StandsAt bytes.now place result }
    {
        Item { bytes, place }
    }

    fn end(&self) -> usize
        ensures { result ≡ after_item self.now.bytes.now self.now.place }
    {
        self.place + 1 + self.bytes[self.place] as usize
    }

    /// The bytes of the item, without their length.
    pub fn form(&self) -> &'a [u8]
        ensures { result.now ≡ item_bytes self.now.bytes.now self.now.place }
    {
        &self.bytes[self.place + 1..self.end()]
    }

    /// The item that stands so many items later.
    pub fn later(&self, count: u8) -> Item<'a>
        requires { let bytes = self.now.bytes.now in
            (m : ℕ) → m ≤ count → after_item bytes (item_place bytes self.now.place m) ≤ length bytes }
        ensures { let bytes = self.now.bytes.now in
            StandsAt bytes (item_place bytes self.now.place count) result }
    {
        let mut item = *self;
        for _ in 0..count {
            item = Item::at(item.bytes, item.end());
        }
        item
    }
}
