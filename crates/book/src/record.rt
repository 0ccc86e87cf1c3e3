// The records of a book, one at a time. Each function is given the place of its record in the whole book, and answers what the record says, or
// the refusal of the record's first fault.
ghost use Rattle.std.specs.Prelude.{◌≡◌, ◌+◌, ◌≤◌, ◌<◌, length, IfOk, slice_index};
ghost use Rattle.book.specs.Reader.{opened};
ghost use Rattle.book.specs.Book.{counts_fit, span_ends, length_fits};
ghost use Rattle.book.specs.Format.{hd, nd, sp};
ghost use Rattle.book.specs.Inside.{Reads, counts_of, span_of, LightpathsHeld, ends_in, ends_fit, RouteRead, LpRead, held_for, follows_in, tally_with, AlRead, EndRead};

use crate::counts::Counts;
use crate::network::Network;
use crate::place::Place;
use crate::refusal::{Fault, Refusal};
use crate::{Book, set, walk};

// The mark of two bytes that is due, then k fixed fields, which are handed back.
fn opened<'a>(here: Place<'a>, mark: &[u8; 2], k: usize) -> Result<&'a [u8], Refusal>
    requires { k < 16 }
    ensures told { Reads result here.entry.s.now here.entry.at (opened (record { one = slice_index mark.now 0; two = slice_index mark.now 1 }) k) (2 + k) (λ v. v.now) }
    ensures long { IfOk result (λ v. length v.now ≡ k) }
{
    let Place { s, at } = here;
    let d = &s[at..];
    if d.len() < 2 {
        return Err(Fault::CutShort.at(at));
    }
    if !d.starts_with(mark) {
        return Err(Fault::WrongMark.at(at));
    }
    if d.len() < 2 + k {
        return Err(Fault::CutShort.at(at));
    }
    Ok(&d[2..2 + k])
}

// Whether they are counts of a book.
fn counts_fit(nodes: u8, spans: u8, lightpaths: u8, alternatives: u8) -> bool
    ensures { result ≡ counts_fit nodes spans lightpaths alternatives }
{
    (1..=64).contains(&nodes) && spans <= 128 && lightpaths <= 96 && alternatives <= 56
}

// HD, whose counts fit.
pub(crate) fn hd(s: &[u8]) -> Result<Counts, Refusal>
    ensures { Reads result s.now 0 hd 6 counts_of }
{
    let v = opened(Place { s, at: 0 }, b"HD", 4)?;
    if !counts_fit(v[0], v[1], v[2], v[3]) {
        return Err(Fault::BadCounts.at(0));
    }
    Ok(Counts {
        nodes: v[0],
        spans: v[1],
        lightpaths: v[2],
        alternatives: v[3],
    })
}

// ND: whether the node is a station.
pub(crate) fn nd(here: Place<'_>) -> Result<bool, Refusal>
    ensures { Reads result here.entry.s.now here.entry.at nd 3 (λ t. t) }
{
    let v = opened(here, b"ND", 1)?;
    match v[0] {
        0 => Ok(false),
        1 => Ok(true),
        _ => Err(Fault::BadField.at(here.at)),
    }
}

#[derive(Clone, Copy)]
pub(crate) struct Span {
    pub left: u8,
    pub right: u8,
    pub limit: u8,
}

// Whether they are different nodes.
#[tactic(auto, unfolding(crate::specs::Book::span_ends))]
fn span_ends(nodes: u8, a: u8, b: u8) -> bool
    ensures { result ≡ span_ends nodes a b }
{
    a < nodes && b < nodes && a != b
}

// SP, whose ends are different nodes.
pub(crate) fn sp(here: Place<'_>, nodes: u8) -> Result<Span, Refusal>
    ensures { Reads result here.entry.s.now here.entry.at (sp nodes) 5 span_of }
{
    let v = opened(here, b"SP", 3)?;
    if !span_ends(nodes, v[0], v[1]) {
        return Err(Fault::BadField.at(here.at));
    }
    Ok(Span {
        left: v[0],
        right: v[1],
        limit: v[2],
    })
}

// The ends of a lightpath.
#[derive(Clone, Copy)]
pub(crate) struct Ends {
    pub from: u8,
    pub to: u8,
}

// Whether it is the length of a route.
#[tactic(auto, unfolding(crate::specs::Book::length_fits))]
fn length_fits(len: u8) -> bool
    ensures { result ≡ length_fits len }
{
    (1..=16).contains(&len)
}

// A route of `len` spans between two nodes, which begins at `start` in the record here: its length, whether its bytes are there, its span
// numbers, its walk. The first two are faults of the record; the others, of a span.
fn route<'a>(
    here: Place<'a>,
    start: usize,
    len: u8,
    ends: Ends,
    network: Network,
) -> Result<&'a [u8], Refusal>
    requires { (ends.from < 64) × (start ≤ length here.s.now) }
    ensures { RouteRead result here.entry.s.now here.entry.at start len (ends_in ends) network.entry.book.now }
{
    let Place { s, at } = here;
    if !length_fits(len) {
        return Err(Fault::BadLength.at(at));
    }
    let n = len as usize;
    if s.len() - start < n {
        return Err(Fault::CutShort.at(at));
    }
    let route = &s[start..start + n];
    if let Some(j) = walk::first_high(route, network.book.spans) {
        return Err(Fault::SpanTooHigh.at(start + j));
    }
    if let Some(j) = network.first_stray(route, ends.from, ends.to) {
        return Err(Fault::BrokenWalk.at(start + j));
    }
    Ok(route)
}

// Whether the ends are different stations.
fn ends_fit(network: Network, ends: Ends) -> bool
    ensures { result ≡ ends_fit network.entry.book.now.nodes network.entry.book.now.stations ends.from ends.to }
{
    let book = network.book;
    let Ends { from, to } = ends;
    from < book.nodes
        && to < book.nodes
        && set::has(book.stations, from)
        && set::has(book.stations, to)
        && from != to
}

#[derive(Clone, Copy)]
pub(crate) struct Lightpath<'a> {
    pub ends: Ends,
    pub route: &'a [u8],
}

// LP, whose ends are different stations, which its route joins.
pub(crate) fn lp<'a>(here: Place<'a>, network: Network) -> Result<Lightpath<'a>, Refusal>
    ensures { LpRead result here.entry.s.now here.entry.at network.entry.book.now }
{
    let v = opened(here, b"LP", 3)?;
    let ends = Ends {
        from: v[0],
        to: v[1],
    };
    if !ends_fit(network, ends) {
        return Err(Fault::BadField.at(here.at));
    }
    let route = route(here, here.at + 5, v[2], ends, network)?;
    Ok(Lightpath { ends, route })
}

// Of the alternatives so far: the last one's lightpath, how many are that lightpath's, and of how many lightpaths they are.
// Before the first all three are 0. `last` is no Option, since no test asks whether there is one: no lightpath is below 0, and `same` is 0.
#[derive(Clone, Copy)]
pub(crate) struct Tally {
    pub last: u8,
    pub same: u8,
    pub different: u8,
}

impl Tally {
    // How many of the alternatives so far are lightpath k's, where k is not below the last.
    fn held_for(self, k: u8) -> u8
        ensures { result ≡ held_for self.last self.same k }
    {
        if k == self.last { self.same } else { 0 }
    }

    // Whether an alternative of lightpath k may stand next, in a book with so many lightpaths.
    fn follows(self, lightpaths: u8, k: u8) -> bool
        ensures { result ≡ follows_in self.last self.same self.different lightpaths k }
    {
        let held = self.held_for(k);
        k < lightpaths && self.last <= k && (0 < held || self.different < 8) && held < 7
    }

    // With one alternative more, of lightpath k.
    pub(crate) fn with(self, k: u8) -> Tally
        requires { (self.same < 255) × (self.different < 255) }
        ensures { result ≡ tally_with self k }
    {
        let held = self.held_for(k);
        Tally {
            last: k,
            same: held + 1,
            different: self.different + u8::from(held == 0),
        }
    }
}

#[derive(Clone, Copy)]
pub(crate) struct Alternative<'a> {
    pub lightpath: u8,
    pub route: &'a [u8],
}

// AL, which may follow those that are tallied; its route joins the ends of its lightpath.
pub(crate) fn al<'a>(here: Place<'a>, tally: Tally, book: &Book) -> Result<Alternative<'a>, Refusal>
    requires { LightpathsHeld book.now }
    ensures { AlRead result here.entry.s.now here.entry.at tally book.now }
{
    let v = opened(here, b"AL", 2)?;
    let lightpath = v[0];
    if !tally.follows(book.lightpaths, lightpath) {
        return Err(Fault::OutOfOrder.at(here.at));
    }
    let ends = Ends {
        from: book.from[lightpath as usize],
        to: book.to[lightpath as usize],
    };
    let route = route(here, here.at + 4, v[1], ends, Network { book })?;
    Ok(Alternative { lightpath, route })
}

// EN is due, and then nothing.
pub(crate) fn en(here: Place<'_>) -> Result<(), Refusal>
    ensures { EndRead result here.entry.s.now here.entry.at }
{
    opened(here, b"EN", 0)?;
    let Place { s, at } = here;
    let end = at + 2;
    if end < s.len() {
        return Err(Fault::AfterEnd.at(end));
    }
    Ok(())
}
