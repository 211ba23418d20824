//! Figures summed over runs.
use engine::tallies::Tallies;
use memory::guest::Word;
use std::fmt;

// Not `Tallies` over another width: a sum over runs has one figure more, and its own way to be printed.
/// The figures of several runs together, and the sum of the words that were read, modulo 2^32.
#[derive(Clone, Copy, Default)]
pub struct Figures {
    calls: u64,
    hits: u64,
    hidden: u64,
    true_exits: u64,
    trace: u64,
    flush: u64,
    switch: u64,
    evictions: u64,
    sum: Word,
}

impl Figures {
    /// Adds a run.
    pub fn add(&mut self, run: Tallies, sum: Word) {
        self.calls = self.calls.wrapping_add(run.calls as u64);
        self.hits = self.hits.wrapping_add(run.hits as u64);
        self.hidden = self.hidden.wrapping_add(run.hidden as u64);
        self.true_exits = self.true_exits.wrapping_add(run.true_exits as u64);
        self.trace = self.trace.wrapping_add(run.trace as u64);
        self.flush = self.flush.wrapping_add(run.flush as u64);
        self.switch = self.switch.wrapping_add(run.switch as u64);
        self.evictions = self.evictions.wrapping_add(run.evictions as u64);
        self.sum = self.sum.wrapping_add(sum);
    }
}

impl fmt::Display for Figures {
    fn fmt<W: fmt::Write>(&self, f: &mut fmt::Formatter<W>) -> fmt::Result {
        let Figures {
            calls,
            hits,
            hidden,
            true_exits,
            trace,
            flush,
            switch,
            evictions,
            sum,
        } = self;
        write!(
            f,
            "calls {calls} hits {hits} hidden {hidden} true {true_exits} trace {trace}"
        )?;
        write!(
            f,
            " flush {flush} switch {switch} evictions {evictions} sum {sum:08x}"
        )
    }
}
