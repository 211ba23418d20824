//! Loads, stores and fetches.
ghost use Rattle.std.specs.Prelude.{◌≡◌, Err};
ghost use Rattle.calls.specs.Replies as plain;
ghost use Rattle.paging.specs.Terms.{fetch, load, store};
ghost use Rattle.runs.specs.Terms.{access};
ghost use Rattle.unit.specs.Faults.{Waits};
ghost use Rattle.unit.specs.Promises.{Promised, view};
ghost use Rattle.unit.specs.Replies.{access_reply};

use crate::machine::Machine;
use crate::tokens::PendingFault;
use calls::plain::AccessError;
use engine::engine::Through;
use memory::guest::{GuestMemory, Word};
use paging::access::{Address, Kind};
use paging::format::PageFormat;
use policies::policy::EvictionPolicy;
use walk::fault::Fault;

// No `From`: one that makes a token of a fault would be public, and anyone could forge a token by it.
/// The same with a fault as a token.
fn with_token(error: AccessError<Fault>) -> AccessError<PendingFault>
    ensures { access_reply (Err result) ≡ plain.access_reply (Err error) }
{
    match error {
        AccessError::Refused(refusal) => refusal.into(),
        AccessError::Faulted(fault) => AccessError::Faulted(PendingFault { fault }),
    }
}

// The clauses `waits` are what each call leaves pending, by which its caller settles, and so a promise of each.
impl<M: GuestMemory, F: PageFormat, P: EvictionPolicy> Machine<M, F, P> {
    /// Reads the word at an address.
    pub fn load(&mut self, address: Address) -> Result<Through, AccessError<PendingFault>>
        ensures promise { Promised M.GuestMemory F.PageFormat P.EvictionPolicy (access load address 0) self.old (access_reply result) self.new }
        ensures waits { Waits (view M.GuestMemory F.PageFormat P.EvictionPolicy self.new) (access_reply result) }
    {
        self.step_access(Kind::Load, address, 0).map_err(with_token)
    }

    /// Writes a word at an address.
    pub fn store(
        &mut self,
        address: Address,
        word: Word,
    ) -> Result<Through, AccessError<PendingFault>>
        ensures promise { Promised M.GuestMemory F.PageFormat P.EvictionPolicy (access store address word) self.old (access_reply result) self.new }
        ensures waits { Waits (view M.GuestMemory F.PageFormat P.EvictionPolicy self.new) (access_reply result) }
    {
        self.step_access(Kind::Store, address, word)
            .map_err(with_token)
    }

    /// Reads the instruction at an address.
    pub fn fetch(&mut self, address: Address) -> Result<Through, AccessError<PendingFault>>
        ensures promise { Promised M.GuestMemory F.PageFormat P.EvictionPolicy (access fetch address 0) self.old (access_reply result) self.new }
        ensures waits { Waits (view M.GuestMemory F.PageFormat P.EvictionPolicy self.new) (access_reply result) }
    {
        self.step_access(Kind::Fetch, address, 0)
            .map_err(with_token)
    }
}
