// The counts of HD.
ghost use Rattle.std.specs.Prelude.{◌≤◌};

// They fit: no more of a kind than a book can hold.
#[derive(Clone, Copy)]
pub(crate) struct Counts {
    pub nodes: u8,
    pub spans: u8,
    pub lightpaths: u8,
    pub alternatives: u8,
    ghost few: { (nodes ≤ 64) × (spans ≤ 128) × (lightpaths ≤ 96) × (alternatives ≤ 56) },
}
