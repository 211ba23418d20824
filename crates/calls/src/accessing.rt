//! Accesses, refused where they are to be.
ghost use Rattle.std.specs.Prelude.{◌≡◌, ◌%◌, if◌then◌else◌, nat_eq};
ghost use Rattle.calls.specs.Gates.{count_gate, in_run};
ghost use Rattle.calls.specs.Replies.{access_reply};
ghost use Rattle.calls.specs.Views.{run_in, state_in};
ghost use Rattle.calls.specs.declared.plain.AccessError.TheVariants.{Faulted, Refused};
ghost use Rattle.engine.specs.Views.{ended};
ghost use Rattle.paging.specs.Numbers.{kind_number};
ghost use Rattle.runs.specs.Unit.{access_ends, asked_in, refuse};

use crate::checks::ready_to_count;
use crate::plain::{AccessError, PlainMachine};
use engine::engine::Through;
use memory::guest::{GuestMemory, Word};
use memory::refusal::Refusal;
use paging::access::{Address, Kind};
use paging::format::PageFormat;
use policies::policy::EvictionPolicy;
use walk::fault::{Access, Fault};

impl<X> From<Refusal> for AccessError<X> {
    ghost from_gives = { λ e r. r ≡ Refused e };

    fn from(refusal: Refusal) -> AccessError<X> {
        AccessError::Refused(refusal)
    }
}

impl From<Fault> for AccessError<Fault> {
    ghost from_gives = { λ f r. r ≡ Faulted f };

    fn from(fault: Fault) -> AccessError<Fault> {
        AccessError::Faulted(fault)
    }
}

impl<M: GuestMemory, P: EvictionPolicy> PlainMachine<M, P> {
    /// A load, a store of the word, or a fetch.
    pub fn access<F: PageFormat>(
        &mut self,
        kind: Kind,
        address: Address,
        word: Word,
    ) -> Result<Through, AccessError<Fault>>
        ensures { ended (access_reply result) (state_in M.GuestMemory P.EvictionPolicy self.new) ≡ in_run (state_in M.GuestMemory P.EvictionPolicy self.old) count_gate (λ r. if nat_eq (address % 4) 0 then access_ends P.EvictionPolicy.rule F.PageFormat.format (state_in M.GuestMemory P.EvictionPolicy self.old) r (asked_in r (kind_number kind) address) word else refuse (state_in M.GuestMemory P.EvictionPolicy self.old) 5) (run_in P.EvictionPolicy self.old) }
    {
        let hart = self.hart.as_mut().ok_or(Refusal::NoRun)?;
        ready_to_count(hart)?;
        if address % 4 != 0 {
            return Err(Refusal::Unaligned.into());
        }
        let access = Access {
            address,
            kind,
            privilege: hart.mode,
        };
        Ok(self.engine.access::<F>(hart, access, word)?)
    }
}
