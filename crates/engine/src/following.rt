//! Link and leaf of an access that walked and came through.
ghost use Rattle.std.specs.Prelude.{◌≡◌};
ghost use Rattle.engine.specs.Steps.{entered, passed_by, pathed};
ghost use Rattle.mmu.specs.Numbers.{took, traced_by};
ghost use Rattle.paging.specs.Terms.{directory_level};
ghost use Rattle.runs.specs.Unit.{new_place, thing_named, traced};
ghost use Rattle.shadow.specs.Slots.{put_place};
ghost use Rattle.walk.specs.Numbers.{asked};
ghost use Rattle.walk.specs.Walk.{directory_index, table_index};

use crate::engine::Passage;
use memory::guest::{Frame, GuestMemory, Word};
use mmu::exits::Exit;
use mmu::unit::{Mmu, TakenSlot};
use mmu::words::word_or_zero;
use paging::access::Kind;
use paging::format::{Entry, Level, PageFormat};
use policies::policy::EvictionPolicy;
use shadow::slots::SlotTable;
use slot::slots::{SlotNumber, Thing};
use walk::fault::Access;
use walk::path::{directory_index, table_index, word_index};

/// What a directory's word that the walk followed names: the table, or else the large page.
fn thing_named<F: PageFormat>(word: Word) -> Thing
    ensures { result ≡ thing_named (F.PageFormat.format.reads directory_level word) }
{
    match F::read(Level::Directory, word) {
        Entry::Table(frame) => Thing::Table(frame),
        Entry::Page(frame) => Thing::Split(frame),
        // No Option: the definition answers this, and a walk follows no such word.
        Entry::Absent | Entry::Malformed => Thing::Split(0),
    }
}

/// Writes the leaf of a table with its present word, or the piece of a split. Only a store leaves it open to stores.
fn write_place<M: GuestMemory>(
    table: &mut SlotTable,
    memory: &M,
    slot: SlotNumber,
    access: Access,
    frame: Frame,
    thing: Thing,
)
    ensures { table.new ≡ put_place slot (table_index access.address) (new_place (M.GuestMemory.frames memory.now) (asked access) frame thing) table.old }
{
    let index = table_index(access.address);
    let writable = access.kind == Kind::Store;
    match thing {
        Thing::Directory(_) => table.empty_place(slot, index as usize),
        Thing::Table(of) => {
            let word = word_or_zero(memory, of, index);
            table.write_leaf(slot, index as usize, word, frame, writable);
        }
        Thing::Split(_) => table.write_piece(slot, index as usize, writable),
    }
}

/// Sees to the slots that copied the frame of a store. Any other access is hidden.
// That the policy stays is what this leaves alone, and no fact about a value.
fn trace<P: EvictionPolicy>(
    mmu: &mut Mmu<P>,
    access: Access,
    slot: SlotNumber,
    frame: Frame,
) -> Exit
    ensures traced { traced_by mmu.new.table result ≡ traced (asked access) slot frame mmu.old.table }
    ensures policy { mmu.new.policy ≡ mmu.old.policy }
{
    match access.kind {
        Kind::Store => mmu.trace_store(
            slot,
            table_index(access.address) as usize,
            frame,
            word_index(access.address) as usize,
        ),
        Kind::Load | Kind::Fetch => Exit::Hidden,
    }
}

/// Below the link: writes the leaf, sees to a store, and tells the policy of both slots.
fn enter<M: GuestMemory, P: EvictionPolicy>(
    mmu: &mut Mmu<P>,
    memory: &M,
    directory: SlotNumber,
    below: TakenSlot,
    access: Access,
    frame: Frame,
    thing: Thing,
) -> Passage
    ensures { passed_by result mmu.new.table (P.EvictionPolicy.order mmu.new.policy) ≡ entered P.EvictionPolicy.rule (M.GuestMemory.frames memory.now) directory (asked access) frame thing (took below mmu.old.table (P.EvictionPolicy.order mmu.old.policy)) }
{
    write_place(&mut mmu.table, memory, below.slot, access, frame, thing);
    let exit = trace(mmu, access, below.slot, frame);
    mmu.tell_path(directory, below.slot);
    Passage {
        exit,
        evicted: below.evicted,
    }
}

/// Brings the slots up to the guest's tables for an access that reaches a frame, once the marks are written.
pub fn follow<M: GuestMemory, F: PageFormat, P: EvictionPolicy>(
    mmu: &mut Mmu<P>,
    memory: &M,
    root: Frame,
    access: Access,
    frame: Frame,
) -> Passage
    ensures { passed_by result mmu.new.table (P.EvictionPolicy.order mmu.new.policy) ≡ pathed P.EvictionPolicy.rule F.PageFormat.format (M.GuestMemory.frames memory.now) root (asked access) frame mmu.old.table (P.EvictionPolicy.order mmu.old.policy) }
{
    let index = directory_index(access.address);
    let word = word_or_zero(memory, root, index);
    let thing = thing_named::<F>(word);
    let directory = mmu.root_slot(root);
    let below = mmu.link(memory, root, index as usize, word, thing);
    enter(mmu, memory, directory, below, access, frame, thing)
}
