// The book: 256 places for records, of which no two are of one state. Relies on record.
ghost use Rattle.std.specs.Prelude.{◌≡◌, length};
ghost use Rattle.book.specs.Records.{Apart, Few};

use crate::record::Record;

#[derive(Drop)]
pub struct Book {
    // a fixed array, made by repetition: the book has no heap
    pub records: [Option<Record>; 256],
    // for a state's number modulo 256, a place to look at first: advice, and never trusted; an array too, for want of a heap
    pub hints: [u8; 256],
    ghost long: { length records ≡ 256 },
    ghost advised: { length hints ≡ 256 },
    ghost apart: { Apart records },
    ghost few: { Few records },
}
