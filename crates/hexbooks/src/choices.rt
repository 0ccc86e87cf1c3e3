// The listing of a book's choices, and of how they are written. A refused book prints `BAD number place BUF`, from writing choice 0 into 16 bytes, and
// the line `ROOM 4105 BAD number place BUF`, from writing choice 4294967295.
// A good one prints `CHOICES T`, and then of each number n that is tried (below T all, or seven where T is above 30; then T and 4294967295) these lines:
//
//     CHOICE n d0 d1 d2 d3 d4 d5 d6 d7 v x e            n below T: the digits of choice n, their number, the number of the next choice, and 1 if it
//                                                       comes before that one, else 0
//     ROOM r LENGTH len BUF                             what writing it into r bytes answers, four times: r is its length L, L - 1, 0 and L + 9; or
//     ROOM r BAD number place BUF
//     BACK nodes spans lightpaths alternatives T same   what the written bytes read as, and 1 if their choice 0 is written as these bytes, else 0; or
//     BACK BAD number place
//     CHOICE n BAD number place BUF                     n not below T: what writing it into 16 bytes answers; or
//     CHOICE n LENGTH len BUF
//
// Byte i of a buffer is (7 * i + 3) % 256 before each writing, and BUF is the whole buffer afterwards: `-` where it has no bytes, hex where it has at
// most 120, else `*` and its Adler-32 checksum.
ghost use Rattle.std.specs.Prelude.{◌+◌, ◌<◌, ◌≤◌, length, IfOk};

use crate::say::{STDOUT_FILENO, number, print_counts, print_refusal, word};
use crate::tried::each_tried;
use book::choice::{Choice, Movables};
use book::refusal::Refusal;

// The longest buffer that a choice is written into: nine bytes more than the 4,096 in which its length is found.
const ROOM: usize = 4105;

// The most bytes of a buffer that is printed as hex.
const SHORT: usize = 120;

// The most choices of a book that are all tried.
const FEW: u32 = 30;

// The hex digit of a value. Crate `listing` has its like, private: this program looks at the libraries without it.
fn letter(d: u8) -> u8
    requires { d < 16 }
{
    match d {
        0..=9 => d + b'0',
        _ => d - 10 + b'a',
    }
}

// Writes a short buffer as hex, all of it in one write.
fn print_hex(b: &[u8])
    requires { length b.now ≤ SHORT }
{
    let mut text = [0u8; 2 * SHORT];
    for (i, x) in b.iter().enumerate() {
        text[2 * i] = letter(*x / 16);
        text[2 * i + 1] = letter(*x % 16);
    }
    word(&text[..2 * b.len()]);
}

// The Adler-32 checksum.
fn checksum(b: &[u8]) -> u64 {
    let mut sum: u64 = 1;
    let mut sums: u64 = 0;
    for x in b {
        sum = (sum + u64::from(*x)) % 65521;
        sums = (sums + sum) % 65521;
    }
    sums * 65536 + sum
}

// Writes a blank and a buffer, and ends the line.
fn print_buffer(b: &[u8]) {
    word(b" ");
    if b.is_empty() {
        word(b"-");
    } else if b.len() <= SHORT {
        print_hex(b);
    } else {
        word(b"*");
        io::print_decimal(STDOUT_FILENO, checksum(b));
    }
    word(b"\n");
}

// Sets each byte of a buffer to what it is before a call.
fn set_up(out: &mut [u8]) {
    let mut value: u8 = 3;
    for x in out.iter_mut() {
        *x = value;
        value = value.wrapping_add(7);
    }
}

// Writes choice `n` of a book into a buffer that is set up first.
fn write_into(s: &[u8], n: u32, out: &mut [u8]) -> Result<usize, Refusal>
    ensures { IfOk result (λ len. len ≤ length out.new) }
{
    set_up(out);
    book::write::write(s, n, out)
}

// Writes choice `n` into a buffer, and ends the line with the answer and the buffer.
fn print_write(s: &[u8], n: u32, out: &mut [u8]) {
    match write_into(s, n, out) {
        Ok(len) => {
            word(b"LENGTH");
            number(len as u64);
        }
        Err(r) => print_refusal(r),
    }
    print_buffer(out);
}

// Writes choice `n` into a buffer of 16 bytes, and ends the line with what came of it.
fn print_small(s: &[u8], n: u32) {
    let mut space = [0u8; 16];
    print_write(s, n, &mut space);
}

// Prints the line for writing choice `n` into a buffer of `room` bytes.
fn print_room(s: &[u8], n: u32, room: usize)
    requires { room ≤ ROOM }
{
    let mut space = [0u8; ROOM];
    word(b"ROOM");
    number(room as u64);
    word(b" ");
    print_write(s, n, &mut space[..room]);
}

// Prints the lines for writing choice `n`, whose length is `len`, into buffers of four lengths.
fn print_rooms(s: &[u8], n: u32, len: usize)
    requires { len + 9 ≤ ROOM }
{
    print_room(s, n, len);
    if len > 0 {
        print_room(s, n, len - 1);
    }
    print_room(s, n, 0);
    print_room(s, n, len + 9);
}

// Whether choice 0 of a book is written as the book's own bytes.
fn kept(s: &[u8]) -> bool {
    let mut space = io::buffer();
    match write_into(s, 0, &mut space) {
        Ok(len) => &space[..len] == s,
        Err(_) => false,
    }
}

// Prints the line for what a written book reads as.
fn print_back(s: &[u8]) {
    word(b"BACK");
    match book::read(s) {
        Ok(b) => {
            print_counts(&b);
            number(Movables::of(b).total());
            number(kept(s));
        }
        Err(r) => {
            word(b" ");
            print_refusal(r);
        }
    }
    word(b"\n");
}

// Prints the lines for writing choice `n` of a book, and for reading back what was written. A choice that 4,096 bytes do not hold has one line, for that room.
fn print_writes(s: &[u8], n: u32) {
    let mut space = io::buffer();
    match write_into(s, n, &mut space) {
        Ok(len) => {
            print_rooms(s, n, len);
            print_back(&space[..len]);
        }
        Err(_) => print_room(s, n, space.len()),
    }
}

// Prints the line for the digits of choice `n`.
fn print_row(w: Movables, n: u32) {
    let c = Choice::of(n, w);
    let next = c.next(w);
    word(b"CHOICE");
    number(n);
    for digit in c.digits {
        number(digit);
    }
    number(c.number(w));
    number(next.number(w));
    number(c.before(next, w));
    word(b"\n");
}

// Prints the lines for one number of a book with `t` choices.
fn print_choice(s: &[u8], w: Movables, t: u32, n: u32) {
    if n < t {
        print_row(w, n);
        print_writes(s, n);
    } else {
        word(b"CHOICE");
        number(n);
        word(b" ");
        print_small(s, n);
    }
}

// Prints the lines for a good book.
fn print_choices(s: &[u8], w: Movables) {
    let t = w.total();
    word(b"CHOICES");
    number(t);
    word(b"\n");
    each_tried(t, FEW, |n| print_choice(s, w, t, n));
    print_choice(s, w, t, t);
    print_choice(s, w, t, u32::MAX);
}

// Reads a book and prints its lines.
pub(crate) fn print_book(s: &[u8]) {
    match book::read(s) {
        Ok(b) => print_choices(s, Movables::of(b)),
        Err(_) => {
            print_small(s, 0);
            print_room(s, u32::MAX, ROOM);
        }
    }
}
