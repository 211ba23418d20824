//! A table that the tests begin with.
use memory::guest::{Frame, Word};
use shadow::slots::SlotTable;
use slot::slots::{Place, SlotNumber, Thing};
use std::process::Abort;

pub fn link(word: Word, slot: SlotNumber) -> Place {
    Place::Link { word, slot }
}

pub fn leaf(word: Word, aim: Frame, writable: bool) -> Place {
    Place::Leaf {
        word,
        aim,
        writable,
    }
}

pub fn piece(writable: bool) -> Place {
    Place::Piece { writable }
}

/// A slot, an index in it, and what is to stand there.
pub type Stands = (SlotNumber, usize, Place);

pub fn all_stand(rt: &impl Abort, table: &SlotTable, cases: &[Stands]) {
    for (slot, index, place) in cases {
        assert!(rt; table.place(*slot, *index) == *place);
    }
}

/// Five slots in use: a directory in frame 1 with two links, a table in frame 2 with two leaves, a split from frame 1024 with
/// four pieces, another directory, in frame 3, and an empty slot.
pub fn scene() -> SlotTable {
    let mut table = SlotTable::new(5);
    table.fill(0, Thing::Directory(1));
    table.fill(1, Thing::Table(2));
    table.fill(2, Thing::Split(1024));
    table.fill(3, Thing::Directory(3));
    table.write_link(0, 5, 0x801, 1);
    table.write_link(0, 6, 0x10_00c7, 2);
    table.write_link(3, 5, 0x801, 1);
    table.write_leaf(1, 7, 0x10_10c7, 1028, true);
    table.write_leaf(1, 8, 0x8c7, 2, true);
    for j in [0, 4, 5, 1023] {
        table.write_piece(2, j, true);
    }
    table
}
