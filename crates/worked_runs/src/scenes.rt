//! The guests' tables, and what is asked of them.
use memory::guest::{Frame, Word};
use paging::format::{Level, Reason};
use unit::requests::Call;
use walk::fault::{Depth, Fault};

/// The worked run: the directory in frame 0 names at index 1 the table in frame 1, which names frame 2 at index 2 and itself
/// at index 3.
pub const WORKED_WORDS: [(Frame, u32, Word); 3] = [
    (0, 1, 0x0000_1007),
    (1, 2, 0x0000_2007),
    (1, 3, 0x0000_1007),
];

/// The second store clears the entry of the page that the first one used. A load still finds it; after a flush it does not.
pub const WORKED_CALLS: [Call; 7] = [
    Call::Store(0x0040_2004, 5),
    Call::Store(0x0040_3008, 0),
    Call::Load(0x0040_2004),
    Call::FlushAll,
    Call::Load(0x0040_2004),
    Call::Deliver(Fault {
        address: 0x0040_2004,
        reason: Reason::Absent,
        depth: Depth::Entry(Level::Table),
        frame: 1,
        index: 2,
        code: 0,
        cause: 0,
    }),
    Call::Close,
];

/// A guest of the scenes: both entries 1 and 2 of the directory in frame 0 name the table in frame 1, which names frame 2 at
/// index 2 and itself at index 3. Frames 2 and 3 hold a word to tell them by.
#[derive(Drop)]
pub struct Guest {
    pub format: &'static str,
    pub words: [(Frame, u32, Word); 6],
    /// The entry that names frame 3.
    pub entry: Word,
}

pub const SV32: Guest = Guest {
    format: "sv32",
    words: [
        (0, 1, 0x0000_0401),
        (0, 2, 0x0000_0401),
        (1, 2, 0x0000_0807),
        (1, 3, 0x0000_0407),
        (2, 1, 0x2222_2222),
        (3, 1, 0x3333_3333),
    ],
    entry: 0x0000_0c07,
};

pub const X86: Guest = Guest {
    format: "x86",
    words: [
        (0, 1, 0x0000_1007),
        (0, 2, 0x0000_1007),
        (1, 2, 0x0000_2007),
        (1, 3, 0x0000_1007),
        (2, 1, 0x2222_2222),
        (3, 1, 0x3333_3333),
    ],
    entry: 0x0000_3007,
};

/// A table's entry is stored to, all is flushed, and the page is loaded: the load finds the new frame.
pub fn stored_and_flushed(entry: Word) -> [Call; 6] {
    [
        Call::Load(0x0040_2004),
        Call::Store(0x0040_3008, entry),
        Call::Load(0x0040_2004),
        Call::FlushAll,
        Call::Load(0x0040_2004),
        Call::Close,
    ]
}

/// A table's entry is stored to, and the page is loaded by way of a second entry of the directory: nobody may know the old
/// frame there.
pub fn hung_twice(entry: Word) -> [Call; 5] {
    [
        Call::Load(0x0040_2004),
        Call::Store(0x0040_3008, entry),
        Call::Load(0x0080_2004),
        Call::Load(0x0040_2004),
        Call::Close,
    ]
}

/// A page is loaded twice: the second load has no exit.
pub const LOADED_TWICE: [Call; 3] = [
    Call::Load(0x0040_2004),
    Call::Load(0x0040_2004),
    Call::Close,
];
