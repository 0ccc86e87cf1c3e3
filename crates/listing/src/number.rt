// Numbers as they are typed: decimal digits, read into 32 bits.
ghost use Rattle.std.specs.Prelude.{◌≡◌, true};
ghost use Rattle.std.specs.Char.{is_ascii_digit};
ghost use Rattle.listing.specs.Number.{all_digits, parsed};
ghost use Rattle.listing.specs.Inside.{with_digit};

// Why a word is no number: it has no byte, a byte that is no digit, or digits worth 2 to the power 32 or more.
#[derive(Clone, Copy, Debug, PartialEq, Eq)]
pub enum NotNumber {
    Empty,
    NotDigits,
    TooGreat,
}

// Whether a word has digits only.
fn all_digits(word: &[u8]) -> bool
    ensures { result ≡ all_digits word.now }
{
    word.iter().all(|c| c.is_ascii_digit())
}

// What digits worth n are worth with the digit c behind them, where that fits 32 bits.
fn with_digit(n: u32, c: u8) -> Option<u32>
    requires { is_ascii_digit c ≡ true }
    ensures { result ≡ with_digit n c }
{
    n.checked_mul(10)?.checked_add((c - b'0') as u32)
}

// The number that a word is, or why it is none. The library's `FromStr` parses text, and a word is bytes.
pub fn parse(word: &[u8]) -> Result<u32, NotNumber>
    ensures { result ≡ parsed word.now }
{
    if word.is_empty() {
        return Err(NotNumber::Empty);
    }
    if !all_digits(word) {
        return Err(NotNumber::NotDigits);
    }
    let mut n = 0;
    for c in word {
        n = with_digit(n, *c).ok_or(NotNumber::TooGreat)?;
    }
    Ok(n)
}
