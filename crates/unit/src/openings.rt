//! Machines built, runs opened and closed, and what is done between them.
ghost use Rattle.std.specs.Prelude.{◌≡◌, None};
ghost use Rattle.calls.specs.Replies.{quiet_reply};
ghost use Rattle.runs.specs.Terms.{close_run, open_run, poke};
ghost use Rattle.unit.specs.Promises.{Begun, Promised, view};
ghost use Rattle.unit.specs.Replies.{TokenBack, TokenOf, close_reply, open_reply};

use crate::machine::Machine;
use crate::tokens::{ClosedToken, RunningToken};
use calls::plain::PlainMachine;
use engine::engine::Engine;
use engine::tallies::Tallies;
use memory::guest::{Frame, GuestMemory, Word};
use memory::refusal::{Refusal, Refused};
use mmu::unit::Mmu;
use paging::format::PageFormat;
use policies::policy::EvictionPolicy;
use runs::laws::calls_lawful;
use shadow::slots::SlotTable;
use std::marker::PhantomData;

impl RunningToken {
    /// The root that the run was opened with.
    pub fn root(&self) -> Frame
        ensures { result ≡ self.now.root }
    {
        self.root
    }
}

impl ClosedToken {
    /// The figures of the run.
    pub fn report(self) -> Tallies
        ensures { result ≡ self.tallies }
    {
        self.tallies
    }
}

impl<M: GuestMemory, F: PageFormat, P: EvictionPolicy> Machine<M, F, P> {
    /// A machine with no run open. It holds all that its runs will need.
    pub fn new(memory: M, policy: P) -> Machine<M, F, P>
        ensures { view M.GuestMemory F.PageFormat P.EvictionPolicy result ≡ record { memory = M.GuestMemory.frames memory; run = None } }
    {
        let mmu = Mmu {
            table: SlotTable::new(0),
            policy,
        };
        Machine {
            plain: PlainMachine {
                engine: Engine { memory, mmu },
                hart: None,
            },
            format: PhantomData,
        }
    }

    /// The guest memory, to look at.
    pub fn memory(&self) -> &M
        ensures { result.now ≡ self.now.plain.engine.memory }
    {
        &self.plain.engine.memory
    }

    /// Opens a run at a root, with so many slots.
    pub fn open(&mut self, root: Frame, slots: usize) -> Result<RunningToken, Refusal>
        ensures promise { Promised M.GuestMemory F.PageFormat P.EvictionPolicy (open_run root slots) self.old (open_reply result) self.new }
        ensures begun { Begun M.GuestMemory F.PageFormat P.EvictionPolicy root slots self.old self.new (open_reply result) }
        ensures token { TokenOf root result }
    {
        self.step_open(root, slots)?;
        Ok(RunningToken { root })
    }

    /// Closes the run. Any running token will do.
    pub fn close(&mut self, token: RunningToken) -> Result<ClosedToken, Refused<RunningToken>>
        ensures promise { Promised M.GuestMemory F.PageFormat P.EvictionPolicy close_run self.old (close_reply result) self.new }
        ensures back { TokenBack token result }
    {
        self.step_close()
            .map(|tallies| ClosedToken { tallies })
            .map_err(|refusal| Refused {
                refusal,
                back: token,
            })
    }

    /// Writes one word of guest memory.
    pub fn poke(&mut self, frame: Frame, index: u32, word: Word) -> Result<(), Refusal>
        ensures { Promised M.GuestMemory F.PageFormat P.EvictionPolicy (poke frame index word) self.old (quiet_reply result) self.new }
    {
        calls_lawful::<F, P>();
        self.plain.poke(frame, index, word)
    }
}
