// Sets of numbers below 64 as one word: bit i for number i.
ghost use Rattle.std.specs.Prelude.{◌≡◌, ◌<◌};
ghost use Rattle.book.specs.Bits.{has, put, put_if};

// Whether i is in x.
#[tactic(auto, using(crate::proofs::Bits::machine_has))]
pub(crate) fn has(x: u64, i: u8) -> bool
    requires { i < 64 }
    ensures { result ≡ has x i }
{
    (x >> i) & 1 == 1
}

// x with i put in.
pub(crate) fn put(x: u64, i: u8) -> u64
    requires { i < 64 }
    ensures { result ≡ put x i }
{
    x | 1u64 << i
}

// x with i put in where the test holds.
pub(crate) fn put_if(t: bool, x: u64, i: u8) -> u64
    requires { i < 64 }
    ensures { result ≡ put_if t x i }
{
    if t { put(x, i) } else { x }
}
