//! Stores that came through by a walk.
ghost use Rattle.std.specs.Prelude.{◌≡◌};
ghost use Rattle.mmu.specs.Numbers.{traced_by};
ghost use Rattle.runs.specs.Unit.{store_traced};

use crate::exits::Exit;
use crate::unit::Mmu;
use memory::guest::Frame;
use policies::policy::EvictionPolicy;
use slot::slots::{SlotNumber, SyncState, Thing};

impl<P: EvictionPolicy> Mmu<P> {
    /// Sees to a store to word `index` of the frame, by the leaf or piece at place `leaf` of the slot. What was copied of a
    /// directory's word goes, and the leaf keeps no flag. A protected table is unsynchronised from now on.
    #[tactic(auto, unfolding(runs::specs::Unit::store_traced))]
    pub fn trace_store(&mut self, slot: SlotNumber, leaf: usize, frame: Frame, index: usize) -> Exit
        ensures traced { traced_by self.new.table result ≡ store_traced slot leaf frame index self.old.table }
        ensures policy { self.new.policy ≡ self.old.policy }
    {
        if self.table.is_directory(frame) {
            self.table.flag_off(slot, leaf);
            self.table.drop_entry(frame, index);
            Exit::Trace
        } else if self.table.is_protected(frame) {
            if let Some(slot) = self.table.find(Thing::Table(frame)) {
                self.table.set_sync(slot, SyncState::Unsynchronised);
            }
            Exit::Trace
        } else {
            Exit::Hidden
        }
    }
}
