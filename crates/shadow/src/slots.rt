//! The table of slots.
pub use policies::policy::SLOT_LIMIT;
use slot::slots::Slot;

/// All slots, of which those from `count` on are not used.
// An array with a count: the memory is fixed, and every slot is there whatever a run uses.
#[derive(Drop)]
pub struct SlotTable {
    pub slots: [Slot; SLOT_LIMIT],
    pub count: usize,
}
