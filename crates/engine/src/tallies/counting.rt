//! Counting calls.
ghost use Rattle.std.specs.Prelude.{◌≡◌, ◌<◌};
ghost use Rattle.engine.specs.Numbers.{tallied};
ghost use Rattle.mmu.specs.Numbers.{exit_number};
ghost use Rattle.runs.specs.Unit.{counted, no_tallies, one_if};

use super::{Tallies, Tally};
use mmu::exits::Exit;

impl Tally {
    /// Nothing counted.
    pub fn new() -> Tally
        ensures { tallied result.figures ≡ no_tallies }
    {
        Tally {
            figures: Tallies::default(),
        }
    }

    /// What was counted.
    pub fn figures(&self) -> Tallies
        ensures { result ≡ self.now.figures }
    {
        self.figures
    }

    /// Counts one call, by its exit, and whether it evicted.
    pub fn count(&mut self, exit: Exit, evicted: bool)
        requires { self.old.figures.calls < 16777216 }
        ensures { tallied self.new.figures ≡ counted (exit_number exit) (one_if evicted) (tallied self.old.figures) }
    {
        let mut figures = self.figures;
        figures.calls += 1;
        match exit {
            Exit::None => figures.hits += 1,
            Exit::Hidden => figures.hidden += 1,
            Exit::True => figures.true_exits += 1,
            Exit::Trace => figures.trace += 1,
            Exit::Flush => figures.flush += 1,
            Exit::Switch => figures.switch += 1,
        }
        if evicted {
            figures.evictions += 1;
        }
        *self = Tally { figures };
    }
}
