//! Machines over small memories, and answers as values that can be compared.
use engine::tallies::Tallies;
use memory::guest::{Frame, GuestMemory, Word};
use mmu::exits::Exit;
use paging::format::{Level, PageFormat, Reason};
use policies::policy::EvictionPolicy;
use std::alloc::Global;
use std::process::Abort;
use std::test::Fail;
use unit::machine::Machine;
use unit::requests::{Call, Reply};
use walk::fault::{Depth, Fault};
use walk::marking::Marks;

/// What is looked at in an answer.
// A type of its own, since most tests leave out the marks that a `Reply` has.
#[derive(Clone, Copy, PartialEq, Eq, Debug)]
pub enum Seen {
    // A number and no `Refusal`: the tests say the numbers that users know.
    Refused(u8),
    /// The word, its frame and the exit.
    Through(Word, Frame, Exit),
    Faulted(Fault),
    Done(Exit),
    Closed(Tallies),
}

pub fn shown(reply: Reply) -> Seen {
    match reply {
        Reply::Refused(refusal) => Seen::Refused(u8::from(refusal)),
        Reply::Through(through) => Seen::Through(through.value, through.frame, through.exit),
        Reply::Faulted(fault) => Seen::Faulted(fault),
        Reply::Done(exit) => Seen::Done(exit),
        Reply::Closed(tallies) => Seen::Closed(tallies),
    }
}

/// The marks of an access that came through.
pub fn marks(reply: Reply) -> Option<Marks> {
    match reply {
        Reply::Through(through) => Some(through.marks),
        _ => None,
    }
}

/// No figures at all, to be filled in.
// Constants are made from it, and a constant cannot call `default`.
pub const ZERO: Tallies = Tallies {
    calls: 0,
    hits: 0,
    hidden: 0,
    true_exits: 0,
    trace: 0,
    flush: 0,
    switch: 0,
    evictions: 0,
};

/// The fault of an x86 load by the supervisor where the directory of frame 0 is empty.
pub const HOLE: Fault = Fault {
    address: 0,
    reason: Reason::Absent,
    depth: Depth::Entry(Level::Directory),
    frame: 0,
    index: 0,
    code: 0,
    cause: 0,
};

/// Pokes words, each given by its frame, its index and itself.
pub fn furnish<M: GuestMemory, F: PageFormat, P: EvictionPolicy>(
    machine: &mut Machine<M, F, P>,
    words: &[(Frame, u32, Word)],
) -> Result<(), Fail> {
    for (frame, index, word) in words {
        machine.poke(*frame, *index, *word)?;
    }
    Ok(())
}

/// Runs a list of calls, and compares what is seen of each answer.
pub fn check_run<M: GuestMemory, F: PageFormat, P: EvictionPolicy>(
    rt: &impl Abort,
    heap: Global,
    machine: &mut Machine<M, F, P>,
    root: Frame,
    slots: usize,
    calls: &[Call],
    expected: &[Seen],
) -> Result<(), Fail> {
    let Ok(replies) = machine.run(heap, root, slots, calls) else {
        return Err(Fail::new("the run was refused"));
    };
    for (reply, want) in replies.iter().zip(expected.iter()) {
        assert_eq!(rt; shown(*reply), *want);
    }
    assert_eq!(rt; replies.len(), expected.len());
    Ok(())
}
