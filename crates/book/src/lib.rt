// Route books: a reader (any bytes in, a book or a numbered refusal out), the choices of a book and their numbers, and a writer of the chosen book.
// docs/BOOK.md says what each of these is and what each refusal means.
#![tactic(auto)]

pub mod choice;
mod copy;
mod counts;
mod fill;
mod network;
mod place;
mod record;
pub mod refusal;
mod row;
mod set;
mod walk;
pub mod write;

ghost use Rattle.std.specs.Prelude.{◌≡◌};
ghost use Rattle.book.specs.Format.{reading};
ghost use Rattle.book.specs.Memory.{shown};

use place::Place;
use refusal::{Fault, Refusal};

// A book that was read: counts, the set of stations, and one array a field, each its list and then noughts. Row k of `route` has 16 places; the
// lightpaths' routes come first, then the alternatives'. `low` and `high` are the spans of each row as a set of 128.
// One array a field, and not one of structs, since the contract of `read` names each: `book_of`, docs/BOOK.md, B46.
#[derive(Clone, Copy)]
pub struct Book {
    pub nodes: u8,
    pub spans: u8,
    pub lightpaths: u8,
    pub alternatives: u8,
    pub stations: u64,
    pub left: [u8; 128],
    pub right: [u8; 128],
    pub limit: [u8; 128],
    pub from: [u8; 96],
    pub to: [u8; 96],
    pub owner: [u8; 56],
    pub len: [u8; 152],
    pub route: [u8; 2432],
    pub low: [u64; 152],
    pub high: [u64; 152],
}

// Reads a book, front to back, up to its first fault: one kind of record after another, each into the book of those before it.
pub fn read(s: &[u8]) -> Result<Book, Refusal>
    ensures { result ≡ shown (reading s.now) }
{
    let counts = record::hd(s)?;
    let nodes = fill::with_nodes(Place { s, at: 6 }, counts.nodes)?;
    if nodes.book.stations == 0 {
        return Err(Fault::NoStation.at(nodes.next.at));
    }
    let spans = fill::with_spans(nodes, counts.spans)?;
    let lightpaths = fill::with_lightpaths(spans, counts.lightpaths)?;
    let all = fill::with_alternatives(lightpaths, counts.alternatives)?;
    record::en(all.next)?;
    Ok(all.book)
}
