// The listing of the judgement of a book's choices: for each number n that is tried (0 to T - 1, or seven where T is above 12) these lines:
//
//     JUDGE n VERDICT                the verdict that `judge` answers: OVER span load limit, SPLIT side, CUT span side, or OK
//     SCORE n F Fc                   the score that `judge` answers
//     SITE n OK or DOWN node side    what `close` answers
//     CONTRACT n VERDICT merges      what `contract` answers: the verdict as above, and how many merges it took
//     ASK n x side whole             what `ask` answers of span x, for all spans, or four where they are more than six; whole is 1 or 0
//     ASK n x BAD 13 0               and of the number after the last span
//
// and then a JUDGE, a SCORE, a SITE, a CONTRACT and an ASK with number T. A refused book prints these five with numbers 0 and 4294967295. A refusal is
// printed as `BAD number place`, and a side in decimal.
use crate::say::{number, print_refusal, word};
use crate::tried::each_tried;
use book::choice::Movables;
use book::refusal::Refusal;
use judgement::{Down, Verdict};

// The most choices, and the most spans, that are all tried.
const CHOICES: u32 = 12;

const SPANS: u32 = 6;

// Prints a verdict.
fn print_verdict(v: Verdict) {
    match v {
        Verdict::Over(x, l, w) => {
            word(b" OVER");
            number(x);
            number(l);
            number(w);
        }
        Verdict::Split(d) => {
            word(b" SPLIT");
            number(d);
        }
        Verdict::Cut(x, d) => {
            word(b" CUT");
            number(x);
            number(d);
        }
        Verdict::Okay => word(b" OK"),
    }
}

// Prints what closing a node does.
fn print_site(site: Option<Down>) {
    match site {
        Some(Down { node, side }) => {
            word(b" DOWN");
            number(node);
            number(side);
        }
        None => word(b" OK"),
    }
}

// Prints a line: its name, the numbers that it is about, and what is told of them, or the refusal.
fn print_line<T: Copy, F: Fn(T)>(name: &[u8], about: &[u32], answer: Result<T, Refusal>, tell: F)
    requires { F.IsAlwaysCallable tell }
{
    word(name);
    for n in about {
        number(*n);
    }
    match answer {
        Ok(told) => tell(told),
        Err(r) => {
            word(b" ");
            print_refusal(r);
        }
    }
    word(b"\n");
}

// Prints the lines for choice `n` but those for the questions about spans.
fn print_judgement(s: &[u8], n: u32) {
    let judged = judgement::judge(s, n);
    print_line(b"JUDGE", &[n], judged, |j| print_verdict(j.verdict));
    print_line(b"SCORE", &[n], judged, |j| {
        number(j.f);
        number(j.fc);
    });
    print_line(b"SITE", &[n], judgement::close(s, n), print_site);
    print_line(b"CONTRACT", &[n], judgement::contract(s, n), |c| {
        print_verdict(c.verdict);
        number(c.merges);
    });
}

// Prints the line for the question about span `x` in choice `n`.
fn print_ask(s: &[u8], n: u32, x: u32) {
    print_line(b"ASK", &[n, x], judgement::ask(s, n, x), |a| {
        number(a.side);
        number(a.whole);
    });
}

// Prints the lines for the questions about the spans of a book that has so many.
fn print_asks(s: &[u8], n: u32, spans: u32) {
    if spans <= SPANS {
        for x in 0..spans {
            print_ask(s, n, x);
        }
    } else {
        for x in [0, 1, spans / 2, spans - 1] {
            print_ask(s, n, x);
        }
    }
    print_ask(s, n, spans);
}

// Prints the lines for choice `n`.
fn print_choice(s: &[u8], n: u32, spans: u32) {
    print_judgement(s, n);
    print_asks(s, n, spans);
}

// Prints the five lines that are refused for number `n`.
fn print_refused(s: &[u8], n: u32, x: u32) {
    print_judgement(s, n);
    print_ask(s, n, x);
}

// Prints the lines of a book.
pub(crate) fn print_book(s: &[u8]) {
    match book::read(s) {
        Ok(b) => {
            let t = Movables::of(b).total();
            let spans = u32::from(b.spans);
            each_tried(t, CHOICES, |n| print_choice(s, n, spans));
            print_refused(s, t, u32::MAX);
        }
        Err(_) => {
            print_refused(s, 0, 0);
            print_refused(s, u32::MAX, u32::MAX);
        }
    }
}
