// What the programs share: a book is read from a file or from standard input, a text is printed on standard output, what went wrong is said on the error
// output, and the status of the call is told to the launcher on descriptor 3, while the program itself ends with 0.
#![tactic(auto)]

ghost use Rattle.std.specs.Prelude.{◌≡◌, ◌≤◌, length, IfOk, IsUtf8, MatchResult, OnOk};
ghost use Rattle.std.specs.Io.KnownBytes.{Appends};
ghost use Rattle.io.specs.Counts.{IsPrefixLen};

use listing::commands;
use listing::text::Text;
use std::env::FillError;
use std::fmt::InlineText;
use std::fs::{File, OpenOptions};
use std::io::{Error, ErrorKind, Read, Write};
use std::rt::Env;
use std::{str, thread};

// The descriptor that the status is told on.
const STATUS: i32 = 3;

// The statuses, each with the byte that it is told as: the answer is given, and the book or a number is refused. Where there is no answer none is told.
#[derive(Clone, Copy)]
pub enum Status {
    Served = b'0' as isize,
    Refused = b'1' as isize,
}

// The numbers that Linux gives to three errors: an argument that is missing, a name that is too long, and bytes that are no text. The programs print the
// system's words for them, which the library has for a number alone.
const MISSING: i32 = 22;

const TOO_LONG: i32 = 36;

const NO_TEXT: i32 = 84;

// Says something on the error output. A name among the words need not be text, so no macro can write it.
pub fn say(rt: &HostRuntime, words: &[u8]) {
    let _ = rt.stderr().write_all(words);
}

// Why a call failed, in the system's words. The number that the library puts after them is left out.
fn reason(text: &str) -> &str {
    match text.rsplit_once(" (os error ") {
        Some((words, _)) => words,
        None => text,
    }
}

// Says what failed, as the caller names it, and why.
pub fn fail(rt: &HostRuntime, what: &[u8], why: Error) {
    let text = InlineText::<256>::of(why);
    say(rt, what);
    say(rt, b": ");
    say(rt, reason(text.as_str()).as_bytes());
    say(rt, b"\n");
}

// Why a read or a write failed, unless it is to be made again: a signal came between, or nothing was ready yet. Others run first then.
fn again(why: Error) -> Result<(), Error> {
    match why.kind() {
        ErrorKind::Interrupted => Ok(()),
        ErrorKind::WouldBlock => {
            thread::yield_now();
            Ok(())
        }
        _ => Err(why),
    }
}

// What comes of a read that fails: why it did, and how many bytes of the space had come before.
#[derive(Clone, Copy)]
pub struct Unread {
    pub why: Error,
    pub len: usize,
}

// Where nothing was read.
impl From<Error> for Unread {
    ghost from_gives = { λ why u. (u.why ≡ why) × (u.len ≡ 0) };

    fn from(why: Error) -> Unread {
        Unread { why, len: 0 }
    }
}

// Reads until the input ends, a read fails, or the space is full: no later byte changes what is said of a book. Answers how many bytes came. A proved loop has to
// end, and nothing says that the input does: so the turns are counted, to a number that no run comes to.
// The answers below are numbers of bytes, and not the bytes, since `read_file` promises a number that fits the space (docs/PROMISES.md).
fn read_whole<R: Read>(reader: &mut R, space: &mut [u8]) -> Result<usize, Unread>
    ensures { MatchResult result (λ n. IsPrefixLen n space.new) (λ u. IsPrefixLen u.len space.new) }
{
    let mut len = 0;
    for turn in 0..u64::MAX {
        match reader.read(&mut space[len..]) {
            Ok(n) => {
                len += n;
                if n == 0 || len == space.len() {
                    return Ok(len);
                }
            }
            Err(why) => again(why).map_err(|why| Unread { why, len })?,
        }
    }
    Err(Unread {
        why: Error::from(ErrorKind::TimedOut),
        len,
    })
}

// Says that something cannot be read, and why.
fn cannot_read(rt: &HostRuntime, what: &[u8], name: &[u8], why: Error) {
    say(rt, b"gristvalley: ");
    say(rt, what);
    say(rt, b" is '");
    say(rt, name);
    fail(rt, b"', which cannot be read", why);
}

// Puts the bytes of argument i into the space, and answers how many they are; or why they are not there.
pub fn argument(rt: &HostRuntime, i: usize, space: &mut [u8]) -> Result<usize, Error>
    ensures { IfOk result (λ n. n ≤ length space.new) }
{
    rt.arg(i, space).map_err(|why| Error::from_raw_os_error(match why {
        FillError::NotPresent => MISSING,
        FillError::TooLong => TOO_LONG,
    }))
}

// A file's name as text, which the library wants it to be.
fn name_text(name: &[u8]) -> Result<&str, Error>
    ensures { MatchResult result (λ text. (text.now ≡ name.now) × IsUtf8 name.now) (λ why. ¬ (IsUtf8 name.now)) }
{
    str::from_utf8(name).map_err(|_| Error::from_raw_os_error(NO_TEXT))
}

// Opens a file or a folder to be read.
pub fn open_read(rt: &HostRuntime, name: &[u8]) -> Result<File, Error>
    ensures { IfOk result (λ file. IsUtf8 name.now) }
{
    let text = name_text(name)?;
    File::open(rt, text)
}

// Makes a new file, which nothing may have been called before, to be written.
pub fn create(rt: &HostRuntime, name: &[u8]) -> Result<File, Error>
    ensures { IfOk result (λ file. IsUtf8 name.now) }
{
    let text = name_text(name)?;
    OpenOptions::new()
        .write(true)
        .create_new(true)
        .open(rt, text)
}

// Reads the file that has the name.
fn read_named(rt: &HostRuntime, name: &[u8], space: &mut [u8]) -> Result<usize, Unread>
    ensures { MatchResult result (λ n. IsPrefixLen n space.new) (λ u. IsPrefixLen u.len space.new) }
{
    let mut file = open_read(rt, name)?;
    read_whole(&mut file, space)
}

// Reads the file that argument i names, which the sentence about a failure calls `what`. Answers how many bytes came; or why none count, and has said so.
pub fn read_file(rt: &HostRuntime, i: usize, what: &[u8], space: &mut [u8]) -> Result<usize, Unread>
    ensures { MatchResult result (λ n. IsPrefixLen n space.new) (λ u. IsPrefixLen u.len space.new) }
{
    let mut name = [0u8; 4096];
    let k = argument(rt, i, &mut name).inspect_err(|why| cannot_read(rt, what, b"", *why))?;
    let name = &name[..k];
    read_named(rt, name, space).inspect_err(|u| cannot_read(rt, what, name, u.why))
}

// Reads standard input, as `read_file` reads a file.
pub fn read_input(rt: &HostRuntime, space: &mut [u8]) -> Result<usize, Unread>
    ensures { MatchResult result (λ n. IsPrefixLen n space.new) (λ u. IsPrefixLen u.len space.new) }
{
    read_whole(&mut rt.stdin(), space).inspect_err(|u| fail(
        rt,
        b"gristvalley: standard input cannot be read",
        u.why,
    ))
}

// Writes all of the bytes, or answers why that was not done. The library's `write_all` fails where nothing is ready; here the write is made again.
pub fn put<W: Write>(writer: &mut W, bytes: &[u8]) -> Result<(), Error>
    ensures { OnOk result (Appends (W.contents writer.old) (W.contents writer.new) bytes.now) }
{
    let mut rest = bytes;
    for turn in 0..u64::MAX {
        if rest.is_empty() {
            return Ok(());
        }
        match writer.write(rest) {
            Ok(0) => return Err(Error::from(ErrorKind::WriteZero)),
            Ok(n) => rest = &rest[n..],
            Err(why) => again(why)?,
        }
    }
    Err(Error::from(ErrorKind::TimedOut))
}

// Prints a text, all of it, or answers why that was not done. Of a text that says more than its struct has nothing is printed.
fn print(rt: &HostRuntime, t: Text) -> Result<(), Error> {
    let bytes = t.bytes;
    let n = usize::from(t.len);
    if n > bytes.len() {
        return Err(Error::from(ErrorKind::InvalidData));
    }
    put(&mut rt.stdout(), &bytes[..n])
}

// Tells the launcher the status of the call, as its byte: any byte, since a narrower type would ask more of a caller.
pub fn tell(status: u8) {
    io::write_all(STATUS, &[status]);
}

// Prints an answer, and tells the status once all of it is written.
pub fn answer(rt: &HostRuntime, t: Text) {
    match print(rt, t) {
        Err(why) => fail(rt, b"gristvalley: the answer could not be printed", why),
        Ok(()) if commands::is_refusal(t) => tell(Status::Refused as u8),
        Ok(()) => tell(Status::Served as u8),
    }
}
