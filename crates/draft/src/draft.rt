// A table as it is read: the first 48 entries are kept, in an array that needs no heap.
ghost use Rattle.std.specs.Prelude.{◌≡◌, length};

use formula::entry::Entry;

#[derive(Drop)]
pub struct Draft {
    pub entries: [Entry; 48],
    // how many there are; `None` is more than 48
    pub count: Option<usize>,
    ghost full: { length entries ≡ 48 },
}
