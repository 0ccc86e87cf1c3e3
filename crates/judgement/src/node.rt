// A node closed: the nodes that each route meets, and who of the other stations is joined without the lightpaths that meet the one that is closed.
ghost use Rattle.std.specs.Prelude.{◌≡◌, true, cond, ◌≤◌, ◌<◌, eqb};
ghost use Rattle.book.specs.Book.{RouteBook, below, well_formed};
ghost use Rattle.book.specs.Memory.{book_of};
ghost use Rattle.judgement.specs.Holding.{Held};
ghost use Rattle.judgement.specs.Closing.{EndsLow, met_in, MetBy, left_in, side_left_in, site_in};
ghost use Rattle.judgement.specs.Sites.{site_of};

use crate::Down;
use crate::judgeable::Judgeable;
use crate::net::Net;
use crate::side::Side;
use book::Book;

// Where a span leads from the node p: to the other of its two ends. `Network::step_over` of book and `Trail::by` choose an end likewise, each with other cases
// around the choice, so that one function for the three would be no plainer.
fn other_end(left: u8, right: u8, p: u8) -> u8
    ensures { result ≡ cond (eqb left p) right left }
{
    if left == p { right } else { left }
}

// The nodes that a route meets from a node on: that node, and where each span leads.
fn met_on(from: u8, route: &[u8], left: &[u8; 128], right: &[u8; 128]) -> Side
    requires { (from < 64) × (below 128 route.now ≡ true) × EndsLow left.now right.now }
    ensures { result.mask ≡ met_in left.now right.now 0 from route.now }
{
    let mut met = Side { mask: 0 };
    let mut p = from;
    for x in route {
        met = met.with(p);
        p = other_end(left[*x as usize], right[*x as usize], p);
    }
    met.with(p)
}

// The nodes that the lightpaths meet, a word for each.
fn met_by(b: &Judgeable) -> [u64; 152]
    requires { Held b.now.book }
    ensures { MetBy b.now.book b.now.book.lightpaths result }
{
    let b = &b.book;
    let mut words = [0u64; 152];
    for k in 0..b.lightpaths as usize {
        let start = 16 * k;
        let route = &b.route[start..start + b.len[k] as usize];
        words[k] = met_on(b.from[k], route, &b.left, &b.right).mask;
    }
    words
}

// The stations that are left when node v is closed.
fn stations_left(all: Side, v: u8) -> Side
    requires { v < 64 }
    ensures { result.mask ≡ left_in all.mask v }
{
    let none = Side { mask: 0 };
    if !all.has(v) {
        return all;
    }
    all.beyond(none.with(v))
}

// The side when node v is closed, which is a bit of the lightpaths' words: it starts at the lowest of the stations that are left, and is empty where none is.
fn side_left(all: Side, net: &Net, words: &[u64; 152], v: u8) -> Side
    requires { v < 64 }
    ensures { result.mask ≡ side_left_in all.mask net.now.n net.now.from net.now.to words.now v }
{
    let left = stations_left(all, v);
    if left.is_empty() {
        return left;
    }
    net.side_without(left.lowest(), words, v)
}

// The lowest node whose closing parts the stations that are left, with the side then.
fn first_down(b: &Judgeable, words: &[u64; 152]) -> Option<Down>
    requires { (b.now.book.nodes ≤ 64) × MetBy b.now.book b.now.book.lightpaths words.now }
    ensures { result ≡ site_in b.now.book words.now }
{
    let net = b.net();
    let all = b.stations();
    (0..b.book.nodes).find_map(|v| {
        let side = side_left(all, &net, words, v);
        (side != stations_left(all, v)).then_some(Down {
            node: v,
            side: side.mask,
        })
    })
}

// The judgement of a book whose nodes are closed one at a time.
#[tactic(auto, using(crate::proofs::Usable::held_usable, crate::proofs::MetWords::held_nodes))]
pub(crate) fn closed_of(b: Book) -> Option<Down>
    requires { Held b }
    ensures { (m : RouteBook) → b ≡ book_of m → well_formed m ≡ true → result ≡ site_of m }
{
    let b = Judgeable { book: b };
    first_down(&b, &met_by(&b))
}
