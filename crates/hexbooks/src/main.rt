// Reads route books as text from standard input, one a line, and prints for each what `book::read` answers: `GOOD nodes spans lightpaths
// alternatives` or `BAD number place`. A line has the book's bytes, at most 4,096, two lower-case hex digits each, with one blank between; `.` alone
// is the empty book. A line that starts with `w` and a blank, and then has a book, prints the listing of src/choices.rt instead, and one that starts with
// `j` and a blank that of src/judged.rt. One that starts with `s` and a blank, and then has four bytes and a book, prints the line of src/found.rt. A line
// that starts with `#` and an empty line print nothing, and any other line prints `?`. Input past 524,288 bytes is not read.
#![tactic(auto)]

ghost use Rattle.std.specs.Prelude.{◌≡◌, length};

mod choices;
mod found;
mod hex;
mod judged;
mod say;
mod tried;

use say::{print_counts, print_refusal, word};

// The descriptor of standard input.
const STDIN_FILENO: i32 = 0;

// Reads a book and prints the line of its answer.
fn print_answer(s: &[u8]) {
    match book::read(s) {
        Ok(b) => {
            word(b"GOOD");
            print_counts(&b);
        }
        Err(r) => print_refusal(r),
    }
    word(b"\n");
}

// Prints what is asked of a book in hex, or of the empty book.
fn print_book<F: Fn(&[u8])>(line: &[u8], print: F)
    requires { F.IsAlwaysCallable print }
{
    if let [b'.'] = line {
        print(b"");
        return;
    }
    let mut space = io::buffer();
    match hex::unhex(line, &mut space) {
        Some(n) => print(&space[..n]),
        None => word(b"?\n"),
    }
}

// Prints what one line of the input asks for.
fn print_line(line: &[u8]) {
    match line {
        [] | [b'#', ..] => {}
        [b'w', b' ', book @ ..] => print_book(book, choices::print_book),
        [b'j', b' ', book @ ..] => print_book(book, judged::print_book),
        [b's', b' ', book @ ..] => print_book(book, found::print_search),
        _ => print_book(line, print_answer),
    }
}

// Goes through the lines of the text. The last may have no line end.
fn print_lines(text: &[u8]) {
    for line in text.split(|b| *b == b'\n') {
        print_line(line);
    }
}

// An array of noughts. It is proved for every length, so that no proof counts the many of `main`.
fn noughts<const N: usize>() -> [u8; N]
    ensures { N ≡ length result }
{
    [0; N]
}

// Reads the whole input and goes through it.
fn main() {
    let mut text: [u8; 524288] = noughts();
    let n = io::read_full(STDIN_FILENO, &mut text);
    print_lines(&text[..n]);
}
