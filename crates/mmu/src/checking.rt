//! Checking tables against guest memory.
ghost use Rattle.std.specs.Prelude.{◌≡◌};
ghost use Rattle.runs.specs.Unit.{resync, resync_all};

use crate::unit::Mmu;
use crate::words::frame_words;
use memory::guest::GuestMemory;
use policies::policy::EvictionPolicy;
use shadow::slots::SLOT_LIMIT;
use slot::slots::{Shadow, SlotNumber};

// The clauses that the policy stays, here and in `looking`, `taking` and `tracing`, say what a call leaves alone. That is no fact
// about a value, which a type could hold.
impl<P: EvictionPolicy> Mmu<P> {
    /// Checks the table that a slot shadows against guest memory, if it is unsynchronised.
    #[tactic(auto, using(crate::proofs::Checked::checked, crate::proofs::Checked::unchecked))]
    pub fn resync<M: GuestMemory>(&mut self, memory: &M, slot: SlotNumber)
        ensures table { self.new.table ≡ resync (M.GuestMemory.frames memory.now) slot self.old.table }
        ensures policy { self.new.policy ≡ self.old.policy }
    {
        if self.table.is_unsynchronised(slot)
            && let Shadow::Table(frame, _) = self.table.shadow(slot)
        {
            self.table.check_table(slot, &frame_words(memory, frame));
        }
    }

    /// Checks every unsynchronised table, by rising slot number.
    pub fn resync_all<M: GuestMemory>(&mut self, memory: &M)
        ensures table { self.new.table ≡ resync_all (M.GuestMemory.frames memory.now) self.old.table }
        ensures policy { self.new.policy ≡ self.old.policy }
    {
        for slot in 0..SLOT_LIMIT {
            self.resync(memory, slot);
        }
    }
}
