//! The links of the root's directory.
ghost use Rattle.std.specs.Prelude.{◌≡◌};
ghost use Rattle.mmu.specs.Numbers.{took};
ghost use Rattle.runs.specs.Unit.{good_link, link_slot, linked};

use crate::unit::{Mmu, TakenSlot};
use memory::guest::{Frame, GuestMemory, Word};
use policies::policy::EvictionPolicy;
use shadow::slots::SlotTable;
use slot::slots::{Place, SlotNumber, Thing};

/// Is the place a link that was copied from the word, to a slot that shadows the thing?
fn is_good_link(table: &SlotTable, word: Word, thing: Thing, place: Place) -> bool
    ensures { result ≡ good_link table.now word thing place }
{
    matches!(place, Place::Link { word: copied, slot } if copied == word && table.shadow(slot).is(thing))
}

/// The slot that a link names: 0 for anything else.
pub fn link_slot(place: Place) -> SlotNumber
    ensures { result ≡ link_slot place }
{
    // No Option: the definition answers 0, and a caller asks only at a link, so that an Option would be unwrapped with 0 again.
    match place {
        Place::Link { slot, .. } => slot,
        Place::Empty | Place::Leaf { .. } | Place::Piece { .. } => 0,
    }
}

impl<P: EvictionPolicy> Mmu<P> {
    /// The slot below the link at an index of the root's directory. The link is written anew unless it is there, was copied
    /// from this word, and leads to a slot that shadows the thing.
    #[tactic(auto, unfolding(runs::specs::Unit::linked))]
    pub fn link<M: GuestMemory>(
        &mut self,
        memory: &M,
        root: Frame,
        index: usize,
        word: Word,
        thing: Thing,
    ) -> TakenSlot
        ensures { took result self.new.table (P.EvictionPolicy.order self.new.policy) ≡ linked P.EvictionPolicy.rule (M.GuestMemory.frames memory.now) root index word thing self.old.table (P.EvictionPolicy.order self.old.policy) }
    {
        let directory = self.root_slot(root);
        let place = self.table.place(directory, index);
        if is_good_link(&self.table, word, thing, place) {
            return TakenSlot {
                slot: link_slot(place),
                evicted: false,
            };
        }
        let below = self.obtain(memory, Some(root), thing);
        self.table.write_link(directory, index, word, below.slot);
        below
    }
}
