// A book whose spans are read, lent to whatever walks over them.
ghost use Rattle.book.specs.Inside.{SpansHeld};

use crate::Book;

// The ends of every span are nodes, and there are as many spans and nodes as a book can have, or fewer.
#[derive(Clone, Copy)]
pub(crate) struct Network<'a> {
    pub book: &'a Book,
    ghost held: { SpansHeld book.now },
}
