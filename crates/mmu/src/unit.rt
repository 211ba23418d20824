//! What a shadow MMU keeps.
use shadow::slots::SlotTable;
use slot::slots::SlotNumber;

/// The slots, and the eviction policy that orders them.
#[derive(Drop)]
pub struct Mmu<P> {
    pub table: SlotTable,
    pub policy: P,
}

/// A slot that was found or taken, and whether another thing had to go for it.
#[derive(Clone, Copy, PartialEq)]
pub struct TakenSlot {
    pub slot: SlotNumber,
    pub evicted: bool,
}
