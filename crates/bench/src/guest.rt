//! The guest of the workloads: three directories, seven tables and 64 pages, for 32-bit x86.
use memory::flat::Flat;
use memory::guest::{Frame, GuestMemory, Word};
use paging::access::Address;
use std::alloc::{AllocError, Global};

/// The directories stand in frames 0, 1 and 2.
pub const DIRECTORIES: Frame = 3;

/// The tables stand from this frame on.
const FIRST_TABLE: Frame = 4;

pub const TABLES: u32 = 7;

/// The pages stand from this frame on.
const FIRST_PAGE: Frame = 16;

pub const PAGES: u32 = 64;

const FRAMES: Frame = 80;

/// Present and writable.
const OPEN: Word = 0x003;

/// The same, accessed and dirty.
const USED: Word = 0x063;

/// An entry for a page, with nothing left to mark. Pages count modulo 64.
pub fn page_entry(page: u32) -> Word {
    (FIRST_PAGE + page % PAGES) << 12 | USED
}

/// The address of a page through a table, under directory 0.
pub fn page_address(table: u32, page: u32) -> Address {
    (table % TABLES) << 22 | (page % PAGES) << 12
}

/// The address of an entry of a table: table 0 maps every table's frame, its own among them, behind the pages.
pub fn entry_address(table: u32, page: u32) -> Address {
    (PAGES + table % TABLES) << 12 | (page % PAGES) << 2
}

/// Entry i of directory d names table i + d modulo 7. Each table maps the 64 pages at 0 to 63. Page p holds p + 1.
pub fn guest_memory(heap: Global) -> Result<Flat, AllocError> {
    let mut memory = Flat::zeroed(heap, FRAMES)?;
    for table in 0..TABLES {
        for directory in 0..DIRECTORIES {
            let frame = FIRST_TABLE + (table + directory) % TABLES;
            let _ = memory.write(directory, table, frame << 12 | OPEN);
        }
        for page in 0..PAGES {
            let _ = memory.write(FIRST_TABLE + table, page, (FIRST_PAGE + page) << 12 | OPEN);
        }
        let _ = memory.write(
            FIRST_TABLE,
            PAGES + table,
            (FIRST_TABLE + table) << 12 | OPEN,
        );
    }
    for page in 0..PAGES {
        let _ = memory.write(FIRST_PAGE + page, 0, page + 1);
    }
    Ok(memory)
}
