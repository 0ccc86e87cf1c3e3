// A place in a book: where the next record is due, with the bytes of the whole book.
ghost use Rattle.std.specs.Prelude.{◌≤◌, length};

#[derive(Clone, Copy)]
pub(crate) struct Place<'a> {
    pub s: &'a [u8],
    pub at: usize,
    ghost within: { at ≤ length s.now },
}
