//! What is refused before a call is looked at.
ghost use Rattle.std.specs.Prelude.{◌≡◌, ◌<◌, true, is_ok};
ghost use Rattle.calls.specs.Gates.{count_gate, ready_gate, refused_with, settle_gate};
ghost use Rattle.engine.specs.Views.{hart_of, pending_fault};
ghost use Rattle.memory.specs.Memory.{has_words};
ghost use Rattle.walk.specs.Numbers.{fault_numbers};

use engine::engine::Hart;
use engine::tallies::CALL_LIMIT;
use memory::guest::{Frame, GuestMemory};
use memory::refusal::Refusal;
use walk::fault::Fault;

/// Has the frame words?
pub fn has_words<M: GuestMemory>(memory: &M, frame: Frame) -> bool
    ensures { result ≡ has_words (M.GuestMemory.frames memory.now frame) }
{
    memory.read(frame, 0).is_ok()
}

/// Is no fault pending?
pub fn ready(hart: &Hart) -> Result<(), Refusal>
    ensures { refused_with result ≡ ready_gate (hart_of hart.now) }
{
    if hart.pending.is_some() {
        return Err(Refusal::FaultPending);
    }
    Ok(())
}

/// And may one more call be counted?
pub fn ready_to_count(hart: &Hart) -> Result<(), Refusal>
    ensures refusal { refused_with result ≡ count_gate (hart_of hart.now) }
    ensures room { is_ok result ≡ true → hart.now.tally.figures.calls < 16777216 }
{
    ready(hart)?;
    if hart.tally.figures().calls >= CALL_LIMIT {
        return Err(Refusal::CallLimit);
    }
    Ok(())
}

/// Is this the fault that is pending?
pub fn may_settle(pending: Option<Fault>, fault: Fault) -> Result<(), Refusal>
    ensures { refused_with result ≡ settle_gate (fault_numbers fault) (pending_fault pending) }
{
    if !pending.is_some_and(|pending| pending == fault) {
        return Err(Refusal::OtherFault);
    }
    Ok(())
}
