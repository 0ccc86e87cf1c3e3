// Copying bytes into a buffer.
ghost use Rattle.std.specs.Prelude.{◌≡◌, ◌+◌, ◌≤◌, length};
ghost use Rattle.book.specs.Memory.{laid};

// Copies src over the bytes of out from `at` on; all else of out is kept. The place is no start of a shorter slice, since `laid`, of which the contract of the
// writer speaks, counts from the front. It goes byte by byte: the library's copy of a slice would have the archive for C need `memmove` from outside.
pub(crate) fn put(out: &mut [u8], at: usize, src: &[u8])
    requires { at + length src.now ≤ length out.old }
    ensures { out.new ≡ laid out.old at src.now }
{
    for (i, byte) in src.iter().enumerate() {
        out[at + i] = *byte;
    }
}
