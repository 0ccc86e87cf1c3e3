// Tries on one book what docs/WITHDRAWN.md says: reads the book from standard input, and asks the library, in choice 0, about every set of up to three spans and
// every part of it, and about the same with every further span out. It prints
//
//     SPANS spans
//     SETS sets JOINED joined PARTED parted PARTS parts SPOILED spoiled      how many sets there are, how many of them leave all stations joined, and how many
//                                                                            do not; how many parts the sets have, and how many parts of those that leave all
//                                                                            joined do not
//     LOSSES sets JOINED joined PARTED parted PARTS parts SPOILED spoiled    the same of the sets and their parts with a further span out, each in turn
//     END
//
// or `BAD number place` and `END` where the book is refused.
#![tactic(auto)]

// The descriptors of standard input and output.
const STDIN_FILENO: i32 = 0;

const STDOUT_FILENO: i32 = 1;

// A set of spans, whose bit x is span x, with one more in it.
fn with(set: u128, x: u8) -> u128 {
    set | 1u128.checked_shl(u32::from(x)).unwrap_or(0)
}

// Whether the library says that all stations are joined with a set of spans out.
fn all_joined(s: &[u8], set: u128) -> bool {
    let low = (set & u128::from(u64::MAX)) as u64;
    let high = (set >> 64) as u64;
    judgement::ask_set(s, 0, low, high).is_ok_and(|a| a.whole)
}

// How many sets were tried, how many of them leave all stations joined and how many do not, how many parts these sets have, and how many parts of those that
// leave all joined do not.
#[derive(Clone, Copy, Default)]
struct Tally {
    sets: u64,
    joined: u64,
    parted: u64,
    parts: u64,
    spoiled: u64,
}

// Counts one more where the test holds, as far as a number goes.
fn count(n: &mut u64, holds: bool) {
    *n = n.saturating_add(u64::from(holds));
}

impl Tally {
    // Counts a list of spans together with a loss, and each part of the list together with it.
    fn add(&mut self, s: &[u8], spans: &[u8], loss: u128) {
        let whole = all_joined(s, spans.iter().fold(loss, |set, x| with(set, *x)));
        count(&mut self.sets, true);
        count(&mut self.joined, whole);
        count(&mut self.parted, !whole);
        self.add_parts(s, spans, loss, whole);
    }

    // Counts a set with each part of a list put into it: the parts without the first span, and those with it.
    fn add_parts(&mut self, s: &[u8], spans: &[u8], set: u128, whole: bool) {
        match spans {
            [] => {
                let joined = all_joined(s, set);
                count(&mut self.parts, true);
                count(&mut self.spoiled, whole && !joined);
            }
            [first, rest @ ..] => {
                self.add_parts(s, rest, set, whole);
                self.add_parts(s, rest, with(set, *first), whole);
            }
        }
    }
}

// The two tallies: of the sets, and of the sets with a further loss.
#[derive(Clone, Copy, Default)]
struct Tallies {
    sets: Tally,
    losses: Tally,
}

impl Tallies {
    // Counts a list of spans, by itself and with each of the n spans as a further loss.
    fn add(&mut self, s: &[u8], n: u8, spans: &[u8]) {
        self.sets.add(s, spans, 0);
        for x in 0..n {
            self.losses.add(s, spans, with(0, x));
        }
    }

    // Counts the lists of up to three of n spans.
    fn of(s: &[u8], n: u8) -> Tallies {
        let mut t = Tallies::default();
        t.add(s, n, &[]);
        for i in 0..n {
            t.add(s, n, &[i]);
            for j in i + 1..n {
                t.add(s, n, &[i, j]);
                for k in j + 1..n {
                    t.add(s, n, &[i, j, k]);
                }
            }
        }
        t
    }
}

// Writes a word and a number after it, by the kit's `io`: nothing is done where a write fails.
fn print(word: &[u8], n: u64) {
    io::write_all(STDOUT_FILENO, word);
    io::write_all(STDOUT_FILENO, b" ");
    io::print_decimal(STDOUT_FILENO, n);
}

// Writes a line with a tally.
fn print_tally(word: &[u8], t: Tally) {
    print(word, t.sets);
    print(b" JOINED", t.joined);
    print(b" PARTED", t.parted);
    print(b" PARTS", t.parts);
    print(b" SPOILED", t.spoiled);
    io::write_all(STDOUT_FILENO, b"\n");
}

// Prints what is counted of a book, or the refusal.
fn print_book(s: &[u8]) {
    match book::read(s) {
        Ok(b) => {
            let t = Tallies::of(s, b.spans);
            print(b"SPANS", u64::from(b.spans));
            print_tally(b"\nSETS", t.sets);
            print_tally(b"LOSSES", t.losses);
        }
        Err(r) => {
            print(b"BAD", u64::from(r.fault.number()));
            print(b"", r.place as u64);
            io::write_all(STDOUT_FILENO, b"\n");
        }
    }
}

// Reads the book and prints what is counted.
fn main() {
    let mut space = io::buffer();
    let n = io::read_full(STDIN_FILENO, &mut space);
    print_book(&space[..n]);
    io::write_all(STDOUT_FILENO, b"END\n");
}
