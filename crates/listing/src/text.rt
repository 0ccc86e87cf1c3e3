// Text in memory, byte by byte: words, decimal numbers, and sides as hex digits.
ghost use Rattle.std.specs.Prelude.{◌≡◌, [], ◌∷◌, ◌-◌, ◌^◌, ◌≤◌, ◌<◌};
ghost use Rattle.listing.specs.Text.{glyph, spelled, decimal, hex, text_of};
ghost use Rattle.listing.specs.Inside.{Adds};

// Up to 1,024 bytes of text, and noughts beyond them. What comes after those is dropped. There is no heap, so the length stands beside the bytes; and no ghost
// field bounds it, since `commands::is_refusal` promises its answer on every such struct.
#[derive(Clone, Copy)]
pub struct Text {
    pub len: u16,
    pub bytes: [u8; 1024],
}

// The digit with value d, in lower case where it is a letter.
fn glyph(d: u8) -> u8
    requires { d < 16 }
    ensures { result ≡ glyph d }
{
    if d < 10 { b'0' + d } else { b'a' + (d - 10) }
}

// By methods and not by `write!`: what the library says of the bytes holds where `write!` answers Ok, and nothing says that it does, even for a writer that
// takes all; but each text is promised on every input.
impl Text {
    // No text.
    pub(crate) fn none() -> Text
        ensures { result ≡ text_of [] }
    {
        Text {
            len: 0,
            bytes: [0; 1024],
        }
    }

    // With one byte more.
    pub(crate) fn byte(mut self, c: u8) -> Text
        ensures { Adds self (c ∷ []) result }
    {
        if self.len < 1024 {
            self.bytes[self.len as usize] = c;
            self.len += 1;
        }
        self
    }

    // With a word more.
    pub(crate) fn word(self, w: &[u8]) -> Text
        ensures { Adds self w.now result }
    {
        let mut t = self;
        for c in w {
            t = t.byte(*c);
        }
        t
    }

    // With the last k digits of a number in a base more.
    fn digits(self, n: u64, base: u64, k: u32) -> Text
        requires { (1 < base) × (base ≤ 16) × (base ^ (k - 1) < 2 ^ 64) }
        ensures { Adds self (spelled base k n) result }
    {
        let mut t = self;
        for i in (0..k).rev() {
            t = t.byte(glyph((n / base.pow(i) % base) as u8));
        }
        t
    }

    // With a blank and a number more, in decimal.
    pub(crate) fn number(self, n: u64) -> Text
        ensures { Adds self (32 ∷ decimal n) result }
    {
        let k = n.max(1).ilog10() + 1;
        self.byte(b' ').digits(n, 10, k)
    }

    // With a blank and a side more, as 16 hex digits.
    pub(crate) fn side(self, d: u64) -> Text
        ensures { Adds self (32 ∷ hex d) result }
    {
        self.byte(b' ').digits(d, 16, 16)
    }

    // With the end of a line more.
    pub(crate) fn end(self) -> Text
        ensures { Adds self (10 ∷ []) result }
    {
        self.byte(b'\n')
    }
}
