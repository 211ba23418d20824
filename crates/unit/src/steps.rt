//! The calls that take or give tokens, on plain records.
ghost use Rattle.std.specs.Prelude.{◌≡◌, true, is_ok, Some};
ghost use Rattle.calls.specs.Replies.{access_reply, close_reply, quiet_reply};
ghost use Rattle.paging.specs.Numbers.{kind_number};
ghost use Rattle.runs.specs.Terms.{access, close_run, deliver, give_up, open_run};
ghost use Rattle.unit.specs.Faults.{Waits, waiting};
ghost use Rattle.unit.specs.Promises.{Begun, Promised, view};
ghost use Rattle.walk.specs.Numbers.{fault_numbers};

use crate::machine::Machine;
use calls::plain::AccessError;
use engine::engine::Through;
use engine::tallies::Tallies;
use memory::guest::{Frame, GuestMemory, Word};
use memory::refusal::Refusal;
use paging::access::{Address, Kind};
use paging::format::PageFormat;
use policies::policy::EvictionPolicy;
use runs::laws::calls_lawful;
use walk::fault::Fault;

impl<M: GuestMemory, F: PageFormat, P: EvictionPolicy> Machine<M, F, P> {
    pub(crate) fn step_access(
        &mut self,
        kind: Kind,
        address: Address,
        word: Word,
    ) -> Result<Through, AccessError<Fault>>
        ensures promise { Promised M.GuestMemory F.PageFormat P.EvictionPolicy (access (kind_number kind) address word) self.old (access_reply result) self.new }
        ensures waits { Waits (view M.GuestMemory F.PageFormat P.EvictionPolicy self.new) (access_reply result) }
    {
        calls_lawful::<F, P>();
        self.plain.access::<F>(kind, address, word)
    }

    // Delivering and giving up stay two: one function for both would have to be told which of two contracts it meets.
    pub(crate) fn step_deliver(&mut self, fault: Fault) -> Result<(), Refusal>
        ensures promise { Promised M.GuestMemory F.PageFormat P.EvictionPolicy (deliver (fault_numbers fault)) self.old (quiet_reply result) self.new }
        ensures settles { waiting (view M.GuestMemory F.PageFormat P.EvictionPolicy self.old) ≡ Some (fault_numbers fault) → is_ok result ≡ true }
    {
        calls_lawful::<F, P>();
        self.plain.deliver(fault)
    }

    pub(crate) fn step_give_up(&mut self, fault: Fault) -> Result<(), Refusal>
        ensures promise { Promised M.GuestMemory F.PageFormat P.EvictionPolicy (give_up (fault_numbers fault)) self.old (quiet_reply result) self.new }
        ensures settles { waiting (view M.GuestMemory F.PageFormat P.EvictionPolicy self.old) ≡ Some (fault_numbers fault) → is_ok result ≡ true }
    {
        calls_lawful::<F, P>();
        self.plain.give_up(fault)
    }

    pub(crate) fn step_open(&mut self, root: Frame, slots: usize) -> Result<(), Refusal>
        ensures promise { Promised M.GuestMemory F.PageFormat P.EvictionPolicy (open_run root slots) self.old (quiet_reply result) self.new }
        ensures begun { Begun M.GuestMemory F.PageFormat P.EvictionPolicy root slots self.old self.new (quiet_reply result) }
    {
        calls_lawful::<F, P>();
        self.plain.open(root, slots)
    }

    pub(crate) fn step_close(&mut self) -> Result<Tallies, Refusal>
        ensures { Promised M.GuestMemory F.PageFormat P.EvictionPolicy close_run self.old (close_reply result) self.new }
    {
        calls_lawful::<F, P>();
        self.plain.close()
    }
}
