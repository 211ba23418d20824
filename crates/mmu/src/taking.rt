//! Finding and taking slots.
ghost use Rattle.std.specs.Prelude.{◌≡◌};
ghost use Rattle.mmu.specs.Numbers.{took};
ghost use Rattle.policies.specs.Orders.{first_permitted};
ghost use Rattle.runs.specs.Unit.{evict_at, guard_for, obtain, ready_for, room, settle_in, take_slot};
ghost use Rattle.shadow.specs.Slots.{first_empty, permitted};

use crate::unit::{Mmu, TakenSlot};
use memory::guest::{Frame, GuestMemory};
use policies::policy::EvictionPolicy;
use shadow::slots::SlotTable;
use slot::slots::Thing;

/// Guards the frame of a directory or a table.
fn guard_for(table: &mut SlotTable, thing: Thing)
    ensures { table.new ≡ guard_for thing table.old }
{
    match thing {
        Thing::Directory(frame) | Thing::Table(frame) => table.guard(frame),
        Thing::Split(_) => {}
    }
}

impl<P: EvictionPolicy> Mmu<P> {
    /// Empties the slot that the policy names, of those that may be taken.
    fn evict_one(&mut self, kept: Option<Frame>) -> TakenSlot
        ensures { took result self.new.table (P.EvictionPolicy.order self.new.policy) ≡ evict_at P.EvictionPolicy.rule (first_permitted (permitted kept self.old.table) (P.EvictionPolicy.order self.old.policy)) self.old.table (P.EvictionPolicy.order self.old.policy) }
    {
        let permitted = self.table.permitted(kept);
        let slot = self.policy.name(&permitted);
        self.table.evict(slot);
        TakenSlot {
            slot,
            evicted: true,
        }
    }

    /// An empty slot: the first, or else one that is emptied. The directory of the root that is kept stays.
    pub fn room(&mut self, kept: Option<Frame>) -> TakenSlot
        ensures { took result self.new.table (P.EvictionPolicy.order self.new.policy) ≡ room P.EvictionPolicy.rule kept self.old.table (P.EvictionPolicy.order self.old.policy) (first_empty self.old.table) }
    {
        match self.table.first_empty() {
            Some(slot) => TakenSlot {
                slot,
                evicted: false,
            },
            None => self.evict_one(kept),
        }
    }

    /// Before a directory is shadowed, a table in its frame is checked.
    fn make_ready<M: GuestMemory>(&mut self, memory: &M, thing: Thing)
        ensures table { self.new.table ≡ ready_for (M.GuestMemory.frames memory.now) thing self.old.table }
        ensures policy { self.new.policy ≡ self.old.policy }
    {
        if let Thing::Directory(frame) = thing {
            if let Some(found) = self.table.find(Thing::Table(frame)) {
                self.resync(memory, found);
            }
        }
    }

    /// Has a slot that was found empty, or emptied, shadow the thing.
    #[tactic(auto, unfolding(runs::specs::Unit::settle_in))]
    pub fn settle_in<M: GuestMemory>(&mut self, memory: &M, thing: Thing, taken: TakenSlot)
        ensures { took taken self.new.table (P.EvictionPolicy.order self.new.policy) ≡ settle_in P.EvictionPolicy.rule (M.GuestMemory.frames memory.now) thing (took taken self.old.table (P.EvictionPolicy.order self.old.policy)) }
    {
        self.make_ready(memory, thing);
        self.table.fill(taken.slot, thing);
        guard_for(&mut self.table, thing);
        self.policy.tell(taken.slot);
    }

    /// Takes a slot for the thing. The directory of the root that is kept stays.
    #[tactic(auto, unfolding(runs::specs::Unit::take_slot))]
    pub fn take<M: GuestMemory>(
        &mut self,
        memory: &M,
        kept: Option<Frame>,
        thing: Thing,
    ) -> TakenSlot
        ensures { took result self.new.table (P.EvictionPolicy.order self.new.policy) ≡ take_slot P.EvictionPolicy.rule (M.GuestMemory.frames memory.now) kept thing self.old.table (P.EvictionPolicy.order self.old.policy) }
    {
        let taken = self.room(kept);
        self.settle_in(memory, thing, taken);
        taken
    }

    /// The slot that shadows the thing, found or taken. The directory of the root that is kept stays.
    #[tactic(auto, unfolding(runs::specs::Unit::obtain))]
    pub fn obtain<M: GuestMemory>(
        &mut self,
        memory: &M,
        kept: Option<Frame>,
        thing: Thing,
    ) -> TakenSlot
        ensures { took result self.new.table (P.EvictionPolicy.order self.new.policy) ≡ obtain P.EvictionPolicy.rule (M.GuestMemory.frames memory.now) kept thing self.old.table (P.EvictionPolicy.order self.old.policy) }
    {
        match self.table.find(thing) {
            Some(slot) => {
                self.resync(memory, slot);
                TakenSlot {
                    slot,
                    evicted: false,
                }
            }
            None => self.take(memory, kept, thing),
        }
    }
}
