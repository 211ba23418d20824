//! Emptying and filling slots.
ghost use Rattle.std.specs.Prelude.{◌≡◌};
ghost use Rattle.slot.specs.Slot.{bare};
ghost use Rattle.shadow.specs.Slots.{change_slot, evict, fill};

use crate::slots::SlotTable;
use slot::changing::change_all;
use slot::slots::{Shadow, SlotNumber, Thing};

impl SlotTable {
    fn reset(&mut self, i: SlotNumber, shadow: Shadow)
        ensures { self.new ≡ change_slot i (λ _. bare shadow) self.old }
    {
        // Not by `get_mut`: once its borrow is over, a proof knows no slot.
        if i < self.slots.len() {
            self.slots[i].reset(shadow);
        }
    }

    /// Empties slot i, and every link to it.
    pub fn evict(&mut self, i: SlotNumber)
        ensures { self.new ≡ evict i self.old }
    {
        change_all(&mut self.slots, |slot| slot.unlink(i));
        self.reset(i, Shadow::Nothing);
    }

    /// Has slot i shadow the thing, with all places empty.
    pub fn fill(&mut self, i: SlotNumber, thing: Thing)
        ensures { self.new ≡ fill i thing self.old }
    {
        self.reset(i, thing.into());
    }
}
