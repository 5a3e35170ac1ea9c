//! The limits of the format, and the tests of them.

ghost use Rattle.std.specs.Prelude.{◌≡◌};
ghost use Rattle.trace_codec.specs.Refusals.{is_empty_write as is_empty, is_page_count as is_count};
ghost use Rattle.trace_codec.specs.Refusals.{is_shift as is_page_shift, is_version as is_known};

use guest_log::LAST_VERSION;

/// The most bytes that a trace may have, `2^28`.
pub const MAX_LENGTH: usize = 268_435_456;

/// No tick of a trace reaches this one, `2^40`.
pub const TICK_LIMIT: u64 = 1_099_511_627_776;

/// The most pages that a guest may have.
pub const MAX_PAGES: u32 = 65_536;

/// The most writes that a trace may have, `2^20`.
pub const MAX_WRITES: u32 = 1_048_576;

/// Returns whether the format has this version.
pub(crate) fn is_version(version: u8) -> bool
    ensures { result ≡ is_known version }
{
    1 <= version && version <= LAST_VERSION
}

/// Returns whether a guest's pages may have `2^shift` bytes.
pub(crate) fn is_shift(shift: u8) -> bool
    ensures { result ≡ is_page_shift shift }
{
    4 <= shift && shift <= 12
}

/// Returns whether a guest may have this many pages.
pub(crate) fn is_page_count(pages: u32) -> bool
    ensures { result ≡ is_count pages }
{
    1 <= pages && pages <= MAX_PAGES
}

/// Returns whether a write has no bytes and is no release: in version 2, one from offset 0 on releases its page.
pub(crate) fn is_empty_write(version: u8, offset: u16, len: usize) -> bool
    ensures { result ≡ is_empty version offset len }
{
    len == 0 && !(version == LAST_VERSION && offset == 0)
}
