// Writing a book's bytes into a buffer that the caller lends: a book is written as it was read, but for the LP records.
ghost use Rattle.std.specs.Prelude.{◌≡◌, ◌∷◌, true, ◌+◌, ◌≤◌, length};
ghost use Rattle.book.specs.Book.{RouteBook, well_formed};
ghost use Rattle.book.specs.Format.{LP, record_bytes, bytes_of, lp_bytes};
ghost use Rattle.book.specs.Memory.{book_of, laid};
ghost use Rattle.book.specs.Writing.{writing, written_of, buffer};
ghost use Rattle.book.specs.Inside.{Held, lightpaths_len};

use crate::choice::LONGEST_ROUTE;
use crate::copy::put;
use crate::refusal::{Fault, Refusal};
use crate::{Book, choice};

// Writes one LP record at `at`: its mark, the ends of the lightpath, the length of its route, and the route.
fn put_lp(out: &mut [u8], at: usize, from: u8, to: u8, route: &[u8])
    requires { (length route.now ≤ 16) × (at + (5 + length route.now) ≤ length out.old) }
    ensures { out.new ≡ laid out.old at (record_bytes LP (from ∷ to ∷ length route.now ∷ route.now)) }
{
    let head = [b'L', b'P', from, to, route.len() as u8];
    put(out, at, &head);
    put(out, at + 5, route);
}

// How many bytes the LP records of a book take, each five and its route, so that a buffer's room is known before a byte is written.
fn lightpaths_len(b: &Book) -> usize
    ensures { result ≡ lightpaths_len b.now }
{
    let lens = b.len.iter().take(b.lightpaths as usize);
    lens.map(|len| 5 + *len as usize).sum()
}

// Writes the LP records of a book, one after another, from `at` on. The route of lightpath k stands at the start of row k.
fn put_lightpaths(out: &mut [u8], at: usize, b: &Book)
    requires { Held b.now × (at + lightpaths_len b.now ≤ length out.old) }
    ensures { (m : RouteBook) → b.now ≡ book_of m → well_formed m ≡ true → out.new ≡ laid out.old at (bytes_of lp_bytes m.lightpaths) }
{
    let mut place = at;
    for k in 0..b.lightpaths as usize {
        let start = LONGEST_ROUTE * k;
        let end = start + b.len[k] as usize;
        let route = &b.route[start..end];
        put_lp(out, place, b.from[k], b.to[k], route);
        place += 5 + route.len();
    }
}

// Writes choice n of a book into the buffer that is lent: the book with each LP route replaced by the chosen one. Nothing else of a book depends
// on these routes, so all but the LP records is copied from s. Where the buffer is too short, nothing is written.
pub fn write(s: &[u8], n: u32, out: &mut [u8]) -> Result<usize, Refusal>
    ensures { (result ≡ written_of (writing s.now n (length out.old))) × (out.new ≡ buffer (writing s.now n (length out.old)) out.old) }
{
    let old = crate::read(s)?;
    let new = choice::chosen_of(old, n)?;
    let first = 6 + 3 * old.nodes as usize + 5 * old.spans as usize;
    let old_end = first + lightpaths_len(&old);
    let new_end = first + lightpaths_len(&new);
    let rest = &s[old_end..];
    let total = new_end + rest.len();
    if out.len() < total {
        return Err(Refusal::of(Fault::NoRoom));
    }
    put(out, 0, &s[..first]);
    put_lightpaths(out, first, &new);
    put(out, new_end, rest);
    Ok(total)
}
