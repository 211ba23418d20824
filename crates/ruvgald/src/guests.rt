//! The page tables of a small guest.
use memory::guest::{Frame, GuestMemory, Word};

/// The frames of the guest's memory.
pub const FRAMES: Frame = 16;

/// The frame of the directory.
pub const ROOT: Frame = 0;

/// The directory, in frame 0, and a table, in frame 1, that the directory's entry 0 names. In the directory entry 1 is a
/// large page from frame 0 on, 2 is malformed, 3 a hole, 4 a table in a frame that memory lacks, and 1,023 names the
/// directory itself as a table. In the table entry 1 is a page of the user's, 2 one of the supervisor's that is not to be
/// written, 3 one in a frame that memory lacks, and 4 a hole.
/// Each word is given by its frame, its index and itself.
pub type Words = [(Frame, u32, Word); 8];

pub const SV32_WORDS: Words = [
    (0, 0, 0x0000_0401),
    (0, 1, 0x0000_000b),
    (0, 2, 0x0000_0405),
    (0, 4, 0x0001_9001),
    (0, 1023, 0x0000_0001),
    (1, 1, 0x0000_0c17),
    (1, 2, 0x0000_1003),
    (1, 3, 0x0001_9003),
];

pub const X86_WORDS: Words = [
    (0, 0, 0x0000_1007),
    (0, 1, 0x0000_0083),
    (0, 2, 0x0000_2087),
    (0, 4, 0x0006_4007),
    (0, 1023, 0x0000_0003),
    (1, 1, 0x0000_3007),
    (1, 2, 0x0000_4001),
    (1, 3, 0x0006_4003),
];

/// Writes the page tables into a memory.
pub fn furnish<M: GuestMemory>(memory: &mut M, words: &Words) {
    for (frame, index, word) in *words {
        let _ = memory.write(frame, index, word);
    }
}
