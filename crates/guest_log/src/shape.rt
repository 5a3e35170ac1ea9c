//! The sizes of a trace, and what its header holds.

ghost use Rattle.std.specs.Prelude.{◌≡◌, ◌≤◌, ◌^◌};

/// The last version of the trace format. In it a write of no bytes releases its page.
pub const LAST_VERSION: u8 = 2;

/// The sizes of a trace: pages of `2^shift` bytes, how many pages, and how many writes.
#[derive(Clone, Copy, Debug, PartialEq, Eq)]
pub struct Shape {
    /// The page shift: a page has `2^shift` bytes.
    pub shift: u8,
    /// How many pages the guest has.
    pub pages: u32,
    /// How many writes the trace has.
    pub writes: u32,
    pub ghost shift_low: { 4 ≤ shift },
    pub ghost shift_high: { shift ≤ 12 },
    pub ghost pages_low: { 1 ≤ pages },
    pub ghost pages_high: { pages ≤ 65_536 },
    pub ghost writes_high: { writes ≤ 2 ^ 20 },
}

/// What the header of a trace holds.
#[derive(Clone, Copy, Debug, PartialEq, Eq)]
pub struct Header {
    /// The version of the format: 1, or 2, in which a write of no bytes releases its page.
    pub version: u8,
    /// The sizes of the trace.
    pub shape: Shape,
    pub ghost version_low: { 1 ≤ version },
    pub ghost version_high: { version ≤ 2 },
}

impl Shape {
    /// Returns how many bytes one page has.
    pub fn page_size(&self) -> usize
        ensures { result ≡ 2 ^ self.now.shift }
    {
        1usize << self.shift
    }
}
