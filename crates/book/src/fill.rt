// The records of each kind, read in a loop into a book that holds what was read before them.
ghost use Rattle.std.specs.Prelude.{◌≡◌, List, [], map, Bool, true, ◌≤◌, length};
ghost use Rattle.book.specs.Reader.{each};
ghost use Rattle.book.specs.Book.{Span, Lightpath, ends_of, every, lightpath_fits};
ghost use Rattle.book.specs.Format.{nd, sp, lp, al};
ghost use Rattle.book.specs.Memory.{book_of, empty_book};
ghost use Rattle.book.specs.Inside.{Told, HoldsNodes, HoldsSpans, HoldsLightpaths, HoldsAll, partly, SpansHeld, LightpathsHeld};

use crate::network::Network;
use crate::place::Place;
use crate::record::Tally;
use crate::refusal::Refusal;
use crate::row::Rows;
use crate::{Book, record, set};

// After the records of a kind: the place of what is due next, and the book with them.
#[derive(Clone, Copy)]
pub(crate) struct Filled<'a> {
    pub next: Place<'a>,
    pub book: Book,
}

// A book of nothing.
fn empty() -> Book
    ensures { result ≡ book_of empty_book }
{
    Book {
        nodes: 0,
        spans: 0,
        lightpaths: 0,
        alternatives: 0,
        stations: 0,
        left: [0; 128],
        right: [0; 128],
        limit: [0; 128],
        from: [0; 96],
        to: [0; 96],
        owner: [0; 56],
        len: [0; 152],
        route: [0; 2432],
        low: [0; 152],
        high: [0; 152],
    }
}

// The ND records: their number and the set of stations.
pub(crate) fn with_nodes(here: Place<'_>, count: u8) -> Result<Filled<'_>, Refusal>
    requires { count ≤ 64 }
    ensures { Told result here.entry (each (λ before. nd) count []) HoldsNodes }
{
    let Place { s, at: mut next } = here;
    let mut stations: u64 = 0;
    for k in 0..count {
        let station = record::nd(Place { s, at: next })?;
        stations = set::put_if(station, stations, k);
        next += 3;
    }
    let book = Book {
        nodes: count,
        stations,
        ..empty()
    };
    let next = Place { s, at: next };
    Ok(Filled { next, book })
}

// The SP records: ends and limits.
pub(crate) fn with_spans(so_far: Filled<'_>, count: u8) -> Result<Filled<'_>, Refusal>
    requires { count ≤ 128 }
    ensures { (ns : List Bool) → so_far.entry.book ≡ book_of (partly ns [] [] [])
        → Told result so_far.entry.next (each (λ before. sp (length ns)) count []) (HoldsSpans ns) }
{
    let Place { s, at: mut next } = so_far.next;
    let b = so_far.book;
    let mut left = [0u8; 128];
    let mut right = [0u8; 128];
    let mut limit = [0u8; 128];
    for k in 0..count as usize {
        let span = record::sp(Place { s, at: next }, b.nodes)?;
        left[k] = span.left;
        right[k] = span.right;
        limit[k] = span.limit;
        next += 5;
    }
    let book = Book {
        spans: count,
        left,
        right,
        limit,
        ..b
    };
    let next = Place { s, at: next };
    Ok(Filled { next, book })
}

// The LP records: ends, and routes in the first rows.
pub(crate) fn with_lightpaths(so_far: Filled<'_>, count: u8) -> Result<Filled<'_>, Refusal>
    requires { (count ≤ 96) × SpansHeld so_far.book }
    ensures { (ns : List Bool) (sps : List Span) → so_far.entry.book ≡ book_of (partly ns sps [] [])
        → Told result so_far.entry.next (each (λ before. lp ns sps) count []) (HoldsLightpaths ns sps) }
{
    let Place { s, at: mut next } = so_far.next;
    let b = so_far.book;
    let mut from = [0u8; 96];
    let mut to = [0u8; 96];
    let mut rows = Rows {
        len: [0; 152],
        route: [0; 2432],
        low: [0; 152],
        high: [0; 152],
    };
    let network = Network { book: &b };
    for k in 0..count as usize {
        let lightpath = record::lp(Place { s, at: next }, network)?;
        from[k] = lightpath.ends.from;
        to[k] = lightpath.ends.to;
        rows.put(k, lightpath.route);
        next += 5 + lightpath.route.len();
    }
    let book = Book {
        lightpaths: count,
        from,
        to,
        len: rows.len,
        route: rows.route,
        low: rows.low,
        high: rows.high,
        ..b
    };
    let next = Place { s, at: next };
    Ok(Filled { next, book })
}

// The AL records: their lightpaths, and routes in the rows after those of the LP records.
pub(crate) fn with_alternatives(so_far: Filled<'_>, count: u8) -> Result<Filled<'_>, Refusal>
    requires { (count ≤ 56) × LightpathsHeld so_far.book }
    ensures { (ns : List Bool) (sps : List Span) (lps : List Lightpath) → so_far.entry.book ≡ book_of (partly ns sps lps []) → every (λ before. lightpath_fits ns sps) [] lps ≡ true
        → Told result so_far.entry.next (each (al sps (map ends_of lps)) count []) (HoldsAll ns sps lps) }
{
    let Place { s, at: mut next } = so_far.next;
    let b = so_far.book;
    let first = b.lightpaths as usize;
    let mut owner = [0u8; 56];
    let mut rows = Rows {
        len: b.len,
        route: b.route,
        low: b.low,
        high: b.high,
    };
    let mut tally = Tally {
        last: 0,
        same: 0,
        different: 0,
    };
    for k in 0..count as usize {
        let alternative = record::al(Place { s, at: next }, tally, &b)?;
        tally = tally.with(alternative.lightpath);
        owner[k] = alternative.lightpath;
        rows.put(first + k, alternative.route);
        next += 4 + alternative.route.len();
    }
    let book = Book {
        alternatives: count,
        owner,
        len: rows.len,
        route: rows.route,
        low: rows.low,
        high: rows.high,
        ..b
    };
    let next = Place { s, at: next };
    Ok(Filled { next, book })
}
