//! Whole runs.
ghost use Rattle.std.specs.Prelude.{◌≡◌, ◌+◌, ◌≤◌, ◌++◌, length, None, vec_len, vec_capacity};
ghost use Rattle.runs.specs.Runs.{left_by, replies_to_close};
ghost use Rattle.unit.specs.Promises.{Promised, view};
ghost use Rattle.unit.specs.Whole.{Ran, call_of, calls_of, replies_of, reply_of};

use crate::machine::Machine;
use crate::requests::{Call, Reply, RunError};
use memory::guest::{Frame, GuestMemory};
use paging::access::Kind;
use paging::format::PageFormat;
use policies::policy::EvictionPolicy;
use runs::laws::runs_to_close_lawful;
use std::alloc::Global;

impl<M: GuestMemory, F: PageFormat, P: EvictionPolicy> Machine<M, F, P> {
    /// Makes one call.
    // A match: the calls are data that users write, and each arm is another public call.
    fn apply(&mut self, call: Call) -> Reply
        ensures { Promised M.GuestMemory F.PageFormat P.EvictionPolicy (call_of call) self.old (reply_of result) self.new }
    {
        match call {
            Call::FlushAll => self.flush_all().into(),
            Call::Load(address) => self.step_access(Kind::Load, address, 0).into(),
            Call::Store(address, word) => self.step_access(Kind::Store, address, word).into(),
            Call::Fetch(address) => self.step_access(Kind::Fetch, address, 0).into(),
            Call::FlushPage(address) => self.flush_page(address).into(),
            Call::Switch(root) => self.switch(root).into(),
            Call::SetMode(mode) => self.set_mode(mode).into(),
            Call::Deliver(fault) => self.step_deliver(fault).into(),
            Call::GiveUp(fault) => self.step_give_up(fault).into(),
            Call::Close => self.step_close().into(),
            Call::Open(root, slots) => self.step_open(root, slots).into(),
            Call::Poke(frame, index, word) => self.poke(frame, index, word).into(),
        }
    }

    /// Makes calls one after the other, up to the one that closes the run. There is room for the answers.
    fn answer_each(&mut self, calls: &[Call], answered: &mut Vec<Reply>)
        requires { vec_len answered.old + length calls.now ≤ vec_capacity answered.old }
        ensures answers { replies_of answered.new.items ≡ replies_of answered.old.items ++ replies_to_close F.PageFormat.format P.EvictionPolicy.rule (view M.GuestMemory F.PageFormat P.EvictionPolicy self.old) (calls_of calls.now) }
        ensures leaves { view M.GuestMemory F.PageFormat P.EvictionPolicy self.new ≡ left_by F.PageFormat.format P.EvictionPolicy.rule (view M.GuestMemory F.PageFormat P.EvictionPolicy self.old) (calls_of calls.now) }
    {
        for call in calls {
            let reply = self.apply(*call);
            answered.push_reserved(reply);
            if self.plain.hart.is_none() {
                return;
            }
        }
    }

    /// Ends a run that its calls left open. Nobody holds its token.
    fn break_off(&mut self)
        ensures { view M.GuestMemory F.PageFormat P.EvictionPolicy self.new ≡ record { memory = M.GuestMemory.frames self.old.plain.engine.memory; run = None } }
    {
        self.plain.hart = None;
    }

    /// Opens a run, makes the calls up to the one that closes it, and answers what each was answered. Where none closes it,
    /// the run is broken off at the end. Room for the answers is sought first.
    pub fn run(
        &mut self,
        heap: Global,
        root: Frame,
        slots: usize,
        calls: &[Call],
    ) -> Result<Vec<Reply>, RunError>
        ensures { Ran M.GuestMemory F.PageFormat P.EvictionPolicy root slots calls.now self.old self.new result }
    {
        let mut answered = Vec::with_capacity(heap, calls.len())?;
        self.step_open(root, slots)?;
        self.answer_each(calls, &mut answered);
        self.break_off();
        runs_to_close_lawful::<F, P>();
        Ok(answered)
    }
}
