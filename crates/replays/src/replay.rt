//! A script that is being replayed on a machine.
use crate::script::Line;
use crate::text::Text;
use memory::guest::{FRAME_WORDS, Frame, GuestMemory};
use mmu::exits::Exit;
use paging::format::PageFormat;
use policies::policy::EvictionPolicy;
use settled::{Settlement, fetch, load, store};
use std::alloc::Global;
use unit::machine::Machine;
use unit::requests::{Call, Reply, RunError};
use unit::tokens::RunningToken;

/// A machine, the token of its open run, how its faults are settled, and the whole run that is being read.
#[derive(Drop)]
pub struct Replay<M, F, P> {
    machine: Machine<M, F, P>,
    frames: u32,
    token: Option<RunningToken>,
    settlement: Settlement,
    opening: Option<(Frame, usize)>,
    calls: Vec<Call>,
}

impl<M: GuestMemory + Drop, F: PageFormat + Drop, P: EvictionPolicy + Drop> Replay<M, F, P> {
    pub fn new(memory: M, frames: u32, policy: P, heap: Global) -> Replay<M, F, P> {
        Replay {
            machine: Machine::new(memory, policy),
            frames,
            token: None,
            settlement: Settlement::Deliver,
            opening: None,
            calls: Vec::new(heap),
        }
    }

    fn open(&mut self, root: Frame, slots: usize) -> Reply {
        match self.machine.open(root, slots) {
            Ok(token) => {
                self.token = Some(token);
                Reply::Done(Exit::None)
            }
            Err(refusal) => refusal.into(),
        }
    }

    /// Closes the run, if there is a token for it.
    fn close(&mut self) -> Option<Reply> {
        let token = self.token.take()?;
        match self.machine.close(token) {
            Ok(closed) => Some(closed.report().into()),
            Err(still) => {
                self.token = Some(still.back);
                Some(still.refusal.into())
            }
        }
    }

    /// Makes a call by tokens, if that can be done: faults are settled as they come, so none can be settled later.
    // A match: the calls are data that users write, and each arm is another public call.
    fn make(&mut self, call: Call) -> Option<Reply> {
        let settlement = self.settlement;
        match call {
            Call::Load(address) => Some(load(&mut self.machine, address, settlement)),
            Call::Store(address, word) => {
                Some(store(&mut self.machine, address, word, settlement))
            }
            Call::Fetch(address) => Some(fetch(&mut self.machine, address, settlement)),
            Call::FlushAll => Some(self.machine.flush_all().into()),
            Call::FlushPage(address) => Some(self.machine.flush_page(address).into()),
            Call::Switch(root) => Some(self.machine.switch(root).into()),
            Call::SetMode(mode) => Some(self.machine.set_mode(mode).into()),
            Call::Poke(frame, index, word) => { Some(self.machine.poke(frame, index, word).into()) }
            Call::Open(root, slots) => Some(self.open(root, slots)),
            Call::Close => self.close(),
            Call::Deliver(_) | Call::GiveUp(_) => None,
        }
    }

    fn show_call(&mut self, rt: &HostRuntime, call: Call) -> anyhow::Result<()> {
        match self.make(call) {
            Some(reply) => println!(rt; "{}", Text::Answer(reply))?,
            None => println!(rt; "no token")?,
        }
        Ok(())
    }

    /// Makes the whole run that was read.
    fn show_run(&mut self, rt: &HostRuntime, root: Frame, slots: usize) -> anyhow::Result<()> {
        match self
            .machine
            .run(rt.alloc(), root, slots, self.calls.as_slice())
        {
            Ok(replies) => {
                for reply in replies.iter() {
                    println!(rt; "{}", Text::Answer(*reply))?;
                }
            }
            Err(RunError::Refused(refusal)) => {
                println!(rt; "run {}", Text::Answer(refusal.into()))?
            }
            Err(RunError::NoMemory) => println!(rt; "no memory")?,
        }
        self.calls.clear();
        self.opening = None;
        Ok(())
    }

    fn show_word(&self, rt: &HostRuntime, frame: Frame, index: u32) -> anyhow::Result<()> {
        match self.machine.memory().read(frame, index) {
            Ok(word) => println!(rt; "word {word:x}")?,
            Err(cause) => println!(rt; "cause {}", cause.number)?,
        }
        Ok(())
    }

    /// The words of one frame, as `sum` adds them up. Its own function: whether a frame has words is then looked up once.
    fn frame_sum(&self, frame: Frame) -> u32 {
        let memory = self.machine.memory();
        let before = frame.wrapping_mul(FRAME_WORDS as u32);
        (0..FRAME_WORDS as u32)
            .map(|index| {
                let position = before.wrapping_add(index).wrapping_add(1);
                memory
                    .read(frame, index)
                    .map_or(0, |word| word.wrapping_mul(position))
            })
            .fold(0, u32::wrapping_add)
    }

    /// Each word times its position, counted from 1, added up modulo 2 to the 32. A frame without words counts nothing.
    fn sum(&self) -> u32 {
        (0..self.frames)
            .map(|frame| self.frame_sum(frame))
            .fold(0, u32::wrapping_add)
    }

    /// Does what a line says.
    // A match, as above: lines are data too.
    pub fn follow(&mut self, rt: &HostRuntime, line: Line) -> anyhow::Result<()> {
        match (line, self.opening) {
            (Line::Call(call), Some(_)) => self.calls.push(call)?,
            (Line::Ran, Some((root, slots))) => self.show_run(rt, root, slots)?,
            (Line::Call(call), None) => self.show_call(rt, call)?,
            (Line::Run(root, slots), None) => self.opening = Some((root, slots)),
            (Line::Settle(settlement), None) => self.settlement = settlement,
            (Line::Record, None) => println!(rt; "{}", Text::Record(self.machine.fault_record()))?,
            (Line::Peek(frame, index), None) => self.show_word(rt, frame, index)?,
            (Line::Sum, None) => println!(rt; "sum {:x}", self.sum())?,
            _ => println!(rt; "out of place")?,
        }
        Ok(())
    }
}
