// A session over a plant. Relies on plant and book.
ghost use Rattle.book.specs.Books.{book_of};
ghost use Rattle.session.specs.Law.{Exact};

use book::book::Book;
use plant::Plant;

#[derive(Drop)]
pub struct Session<P: Plant> {
    pub(crate) plant: P,
    pub(crate) book: Book,
    // the state of the walk that is under way
    pub(crate) walk: Option<u32>,
    // what the book says of a state is what the plant does
    ghost exact: { Exact (P.Plant.model plant).system (book_of book) },
}
