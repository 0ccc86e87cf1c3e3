// A route in a row of sixteen places, and its spans as a set of 128: two words.
ghost use Rattle.std.specs.Prelude.{◌≡◌, ◌≤◌, ◌<◌, length};
ghost use Rattle.book.specs.Inside.{words_of, words_into, with_row};

use crate::{copy, set};

// Spans 0 to 63, and 64 to 127.
#[derive(Clone, Copy)]
pub(crate) struct Words {
    pub low: u64,
    pub high: u64,
}

// One span more.
fn with_span(w: Words, x: u8) -> Words
    ensures { result ≡ words_into w.low w.high x }
{
    Words {
        low: set::put_if(x / 64 == 0, w.low, x % 64),
        high: set::put_if(x / 64 == 1, w.high, x % 64),
    }
}

// The spans of a route as a set.
fn words_of(route: &[u8]) -> Words
    ensures { result ≡ words_of route.now }
{
    let mut w = Words { low: 0, high: 0 };
    for x in route {
        w = with_span(w, *x);
    }
    w
}

// The rows of all routes so far: each route's length, its places, and its spans as a set. One array a field, as in `Book`, into which they go as they stand.
#[derive(Clone, Copy)]
pub(crate) struct Rows {
    pub len: [u8; 152],
    pub route: [u8; 2432],
    pub low: [u64; 152],
    pub high: [u64; 152],
}

impl Rows {
    // Puts a route into row k.
    pub(crate) fn put(&mut self, k: usize, route: &[u8])
        requires { (k < 152) × (length route.now ≤ 16) }
        ensures { self.new ≡ with_row self.old k route.now }
    {
        copy::put(&mut self.route, 16 * k, route);
        let words = words_of(route);
        self.len[k] = route.len() as u8;
        self.low[k] = words.low;
        self.high[k] = words.high;
    }
}
