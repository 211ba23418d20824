//! What a machine keeps while a run is open, and what an access comes to.
use crate::tallies::Tally;
use memory::guest::{Frame, Word};
use mmu::exits::Exit;
use mmu::unit::Mmu;
use paging::access::{Address, Privilege};
use walk::fault::Fault;
use walk::marking::Marks;

/// What the guest was last told of a fault.
#[derive(Clone, Copy, PartialEq, Eq, Debug)]
pub struct FaultRecord {
    pub address: Address,
    pub code: u32,
}

/// What belongs to the processor.
// No model of its own: its fields are public, and contracts read them one by one.
#[derive(Clone, Copy, Drop)]
pub struct Hart {
    pub root: Frame,
    pub mode: Privilege,
    /// The fault that waits to be settled.
    pub pending: Option<Fault>,
    /// What the guest was last told, absent until it is told of a fault.
    pub last: Option<FaultRecord>,
    pub tally: Tally,
}

/// Guest memory, and the shadow MMU over it. The processor stands beside it, in the calls of a run.
// They are two, though many functions take both: between runs there is no processor, and memory and slots stay. No model of its own,
// as for a machine: it would ask for the bounds of memory and policy.
#[derive(Drop)]
pub struct Engine<M, P> {
    pub memory: M,
    pub mmu: Mmu<P>,
}

/// An access that came through.
#[derive(Clone, Copy)]
pub struct Through {
    /// The word that was read or stored.
    pub value: Word,
    /// The frame that it was read or stored in.
    pub frame: Frame,
    /// The marks that were written to the guest's tables.
    pub marks: Marks,
    pub exit: Exit,
}

/// What an access that walked and came through did to the slots.
#[derive(Clone, Copy)]
pub struct Passage {
    pub exit: Exit,
    pub evicted: bool,
}
