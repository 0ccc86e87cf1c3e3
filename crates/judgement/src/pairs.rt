// One span out: the side of the lowest station, and the pairs that F counts there, which are the lightpaths on the span whose ends are not joined then.
ghost use Rattle.std.specs.Prelude.{◌≡◌, ◌<◌};
ghost use Rattle.std.specs.Int.Count.{count_trailing_zeros};
ghost use Rattle.book.specs.Bits.{has};
ghost use Rattle.judgement.specs.Network.{side_of};
ghost use Rattle.judgement.specs.Judgement.{sum, one};
ghost use Rattle.judgement.specs.Nets.{net_in, Told};
ghost use Rattle.judgement.specs.Inside.{up_of, EndsIn, parted_by, unset, apart_on};

use crate::net::Net;
use crate::side;
use crate::side::{Ends, Side, up_without};

// A network of which some lightpaths are up: where these lead, and one side. That they do, `Told`, stays a clause: a ghost field takes a fact that has one proof
// at most (else `ghost-field-no-proposition`), and `Led` tells by which lightpath each row leads.
#[derive(Clone, Copy)]
struct Known<'a> {
    pub net: &'a Net,
    pub up: &'a [bool; 96],
    pub rows: &'a [u64; 64],
    pub side: Side,
}

impl Known<'_> {
    // Whether the ends of a lightpath are joined. Where the side holds one of the two it tells; else a side is grown.
    fn joined(&self, ends: Ends) -> bool
        requires { Told self.now }
        ensures { result ≡ has (side_of (net_in self.now.net.now) (up_of self.now.up.now) 64 ends.from) ends.to }
    {
        if self.side.has(ends.from) {
            return self.side.has(ends.to);
        }
        if self.side.has(ends.to) {
            return false;
        }
        side::reaches(ends, self.rows)
    }

    // Whether lightpath k is not up and its ends are not joined.
    fn is_apart(&self, k: usize) -> bool
        requires { (k < self.now.net.now.n) × Told self.now }
        ensures { result ≡ parted_by self.now.net.now.n self.now.net.now.from self.now.net.now.to (up_of self.now.up.now) k }
    {
        !self.up[k] && !self.joined(self.net.ends(k))
    }

    // How many lightpaths are not up and have ends that are not joined by those that are.
    fn apart(&self) -> u16
        requires { Told self.now }
        ensures { result ≡ sum (λ k. one (parted_by self.now.net.now.n self.now.net.now.from self.now.net.now.to (up_of self.now.up.now) k)) self.now.net.now.n }
    {
        let mut total: u16 = 0;
        for k in 0..self.net.n {
            total += u16::from(self.is_apart(k));
        }
        total
    }
}

// What the loss of a span does: the side of the lowest station then, and how many pairs F counts for the span.
#[derive(Clone, Copy)]
pub(crate) struct Loss {
    pub side: Side,
    pub pairs: u16,
}

// The loss of the span that is the bit of the lightpaths' words. Where the side holds all stations no ends are parted.
pub(crate) fn loss_of(stations: Side, net: &Net, words: &[u64; 152], bit: u8) -> Loss
    requires { (count_trailing_zeros 64 stations.mask < 64) × (bit < 64) × EndsIn net.now.n net.now.from net.now.to stations.mask }
    ensures { (result.side.mask ≡ side_of (net_in net.now) (unset words.now bit) 64 (count_trailing_zeros 64 stations.mask)) × (result.pairs ≡ apart_on net.now.n net.now.from net.now.to words.now bit) }
{
    let up = up_without(words, bit, net.n);
    let rows = net.rows(&up);
    let side = side::grow(stations.lowest(), &rows);
    let pairs = if side == stations {
        0
    } else {
        Known {
            net,
            up: &up,
            rows: &rows,
            side,
        }
        .apart()
    };
    Loss { side, pairs }
}
