//! Taking the flag of stores off whatever aims at a frame.
ghost use Rattle.std.specs.Prelude.{◌≡◌};
ghost use Rattle.shadow.specs.Slots.{guard};

use crate::slots::SlotTable;
use memory::guest::Frame;
use slot::changing::change_all;

impl SlotTable {
    /// Takes the flag off every leaf and piece that aims at the frame.
    pub fn guard(&mut self, frame: Frame)
        ensures { self.new ≡ guard frame self.old }
    {
        change_all(&mut self.slots, |slot| slot.guard(frame));
    }
}
