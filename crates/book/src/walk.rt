// The walk of a route over the spans of a book: the nodes met stand in one word.
ghost use Rattle.std.specs.Prelude.{◌≡◌, true, ◌<◌, length, leb, position};
ghost use Rattle.book.specs.Bits.{put};
ghost use Rattle.book.specs.Book.{below};
ghost use Rattle.book.specs.Inside.{hop_of, stray_in, Within};

use crate::network::Network;
use crate::set;

impl<'a> Network<'a> {
    // The node to which span x leads from the node p, if it has an end there and the other is not yet met.
    // `node::other_end` and `Trail::by` of judgement make the same choice of an end, in one expression of two cases; here a third case leads nowhere.
    fn step_over(self, p: u8, met: u64, x: u8) -> Option<u8>
        requires { x < 128 }
        ensures { result ≡ hop_of self.entry.book.now.left self.entry.book.now.right met p x }
    {
        let a = self.book.left[x as usize];
        let b = self.book.right[x as usize];
        let far = if a == p {
            b
        } else if b == p {
            a
        } else {
            return None;
        };
        if set::has(met, far) { None } else { Some(far) }
    }

    // The place in the route of the span at which a walk from one node to another fails: the first with no end at the present node, or that leads
    // to a node already met; or the last, where all are passed and the walk ends elsewhere.
    pub(crate) fn first_stray(self, route: &[u8], from: u8, to: u8) -> Option<usize>
        requires { (below 128 route.now ≡ true) × (from < 64) }
        ensures { (result ≡ stray_in self.entry.book.now.left self.entry.book.now.right (put 0 from) from 0 0 route.now to) × Within (length route.now) result }
    {
        let mut met = set::put(0, from);
        let mut p = from;
        let mut last = 0;
        for (j, x) in route.iter().enumerate() {
            let Some(q) = self.step_over(p, met, *x) else {
                return Some(j);
            };
            met = set::put(met, q);
            p = q;
            last = j;
        }
        if p == to { None } else { Some(last) }
    }
}

// The place in a route of the first span number that is not below n.
pub(crate) fn first_high(route: &[u8], n: u8) -> Option<usize>
    ensures { result ≡ position (leb n) route.now }
{
    route.iter().position(|x| n <= *x)
}
