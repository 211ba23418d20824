//! Calls and answers as plain records, for whole runs.
ghost use Rattle.std.specs.Prelude.{◌≡◌};
ghost use Rattle.std.specs.Result.{MatchResult};
ghost use Rattle.mmu.specs.declared.exits.Exit.TheVariants as exit;
ghost use Rattle.unit.specs.Whole.{error_reply};
ghost use Rattle.unit.specs.declared.requests.Reply.TheVariants as reply;
ghost use Rattle.unit.specs.declared.requests.RunError.TheVariants as run_error;

use calls::plain::AccessError;
use engine::engine::Through;
use engine::tallies::Tallies;
use memory::guest::{Frame, Word};
use memory::refusal::Refusal;
use mmu::exits::Exit;
use paging::access::{Address, Privilege};
use std::alloc::AllocError;
use walk::fault::Fault;

/// A call of the machine.
#[derive(Clone, Copy)]
pub enum Call {
    FlushAll,
    Load(Address),
    Store(Address, Word),
    Fetch(Address),
    FlushPage(Address),
    Switch(Frame),
    SetMode(Privilege),
    /// Delivers the fault, or gives it up, if it is the pending one.
    Deliver(Fault),
    GiveUp(Fault),
    Close,
    /// Both are refused while a run is open.
    Open(Frame, usize),
    Poke(Frame, u32, Word),
}

/// What a call is answered.
#[derive(Clone, Copy)]
pub enum Reply {
    Refused(Refusal),
    Through(Through),
    Faulted(Fault),
    Done(Exit),
    Closed(Tallies),
}

/// Why a run of a list of calls was not made.
#[derive(Clone, Copy)]
pub enum RunError {
    /// Its opening was refused.
    Refused(Refusal),
    /// There is no memory for its answers.
    NoMemory,
}

impl From<Refusal> for Reply {
    ghost from_gives = { λ e r. r ≡ reply.Refused e };

    fn from(refusal: Refusal) -> Reply {
        Reply::Refused(refusal)
    }
}

impl From<Through> for Reply {
    ghost from_gives = { λ x r. r ≡ reply.Through x };

    fn from(through: Through) -> Reply {
        Reply::Through(through)
    }
}

impl From<Fault> for Reply {
    ghost from_gives = { λ f r. r ≡ reply.Faulted f };

    fn from(fault: Fault) -> Reply {
        Reply::Faulted(fault)
    }
}

impl From<Exit> for Reply {
    ghost from_gives = { λ x r. r ≡ reply.Done x };

    fn from(exit: Exit) -> Reply {
        Reply::Done(exit)
    }
}

/// A call without an exit was accepted.
impl From<()> for Reply {
    ghost from_gives = { λ u r. r ≡ reply.Done exit.None };

    fn from(_accepted: ()) -> Reply {
        Reply::Done(Exit::None)
    }
}

impl From<Tallies> for Reply {
    ghost from_gives = { λ t r. r ≡ reply.Closed t };

    fn from(tallies: Tallies) -> Reply {
        Reply::Closed(tallies)
    }
}

impl From<AccessError<Fault>> for Reply {
    ghost from_gives = { λ e r. r ≡ error_reply e };

    fn from(error: AccessError<Fault>) -> Reply {
        match error {
            AccessError::Refused(refusal) => refusal.into(),
            AccessError::Faulted(fault) => fault.into(),
        }
    }
}

/// What a call was answered, by what was accepted or else by the error.
impl<T: Into<Reply>, E: Into<Reply>> From<Result<T, E>> for Reply {
    ghost from_gives = { λ res r. MatchResult res (λ x. T.converts x r) (λ e. E.converts e r) };

    fn from(res: Result<T, E>) -> Reply {
        match res {
            Ok(accepted) => accepted.into(),
            Err(error) => error.into(),
        }
    }
}

impl From<Refusal> for RunError {
    ghost from_gives = { λ e r. r ≡ run_error.Refused e };

    fn from(refusal: Refusal) -> RunError {
        RunError::Refused(refusal)
    }
}

impl From<AllocError> for RunError {
    ghost from_gives = { λ e r. r ≡ run_error.NoMemory };

    fn from(_error: AllocError) -> RunError {
        RunError::NoMemory
    }
}
