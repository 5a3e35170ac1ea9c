//! Guests whose traces and memories were worked out by hand, and settings for them: for tests.
#![tactic(auto)]

mod changes;
mod settings;

pub use changes::{Change, changed, refused};
pub use settings::{ASKED, REPORT};

/// The trace of a guest of 4 pages of 16 bytes, which writes pages 0 and 1 at ticks 0 and 5, page 1 at tick 1200, and
/// pages 3 and 1 at tick 2500.
pub static TRACE: [u8; 102] = [
    0x50, 0x43, 0x57, 0x54, 1, 4, 0, 0, 4, 0, 0, 0, 5, 0, 0, 0, // header
    0, 0, 0, 0, 0, 0, 0, 0, 0, 0, 0, 0, 0, 0, 1, 0, 1, // write 1
    5, 0, 0, 0, 0, 0, 0, 0, 1, 0, 0, 0, 15, 0, 1, 0, 2, // write 2
    0xb0, 4, 0, 0, 0, 0, 0, 0, 1, 0, 0, 0, 0, 0, 1, 0, 3, // write 3
    0xc4, 9, 0, 0, 0, 0, 0, 0, 3, 0, 0, 0, 2, 0, 2, 0, 4, 5, // write 4
    0xc4, 9, 0, 0, 0, 0, 0, 0, 1, 0, 0, 0, 0, 0, 1, 0, 0, // write 5
];

/// The trace of a guest like this that writes nothing.
pub static NO_WRITES: [u8; 16] = [0x50, 0x43, 0x57, 0x54, 1, 4, 0, 0, 4, 0, 0, 0, 0, 0, 0, 0];

/// The guest's memory after all writes.
pub static MEMORY: [u8; 64] = [
    1, 0, 0, 0, 0, 0, 0, 0, 0, 0, 0, 0, 0, 0, 0, 0, //
    0, 0, 0, 0, 0, 0, 0, 0, 0, 0, 0, 0, 0, 0, 0, 2, //
    0, 0, 0, 0, 0, 0, 0, 0, 0, 0, 0, 0, 0, 0, 0, 0, //
    0, 0, 4, 5, 0, 0, 0, 0, 0, 0, 0, 0, 0, 0, 0, 0,
];

/// The guest's memory before tick 1200: after the first two writes.
pub static MEMORY_AT_1200: [u8; 64] = [
    1, 0, 0, 0, 0, 0, 0, 0, 0, 0, 0, 0, 0, 0, 0, 0, //
    0, 0, 0, 0, 0, 0, 0, 0, 0, 0, 0, 0, 0, 0, 0, 2, //
    0, 0, 0, 0, 0, 0, 0, 0, 0, 0, 0, 0, 0, 0, 0, 0, //
    0, 0, 0, 0, 0, 0, 0, 0, 0, 0, 0, 0, 0, 0, 0, 0,
];

/// The guest's memory before tick 2000: after the first three writes.
pub static MEMORY_AT_2000: [u8; 64] = [
    1, 0, 0, 0, 0, 0, 0, 0, 0, 0, 0, 0, 0, 0, 0, 0, //
    3, 0, 0, 0, 0, 0, 0, 0, 0, 0, 0, 0, 0, 0, 0, 2, //
    0, 0, 0, 0, 0, 0, 0, 0, 0, 0, 0, 0, 0, 0, 0, 0, //
    0, 0, 0, 0, 0, 0, 0, 0, 0, 0, 0, 0, 0, 0, 0, 0,
];
