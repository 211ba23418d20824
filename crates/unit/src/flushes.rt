//! Flushes, switches and changes of the mode.
ghost use Rattle.calls.specs.Replies.{exit_reply, quiet_reply};
ghost use Rattle.paging.specs.Numbers.{privilege_number};
ghost use Rattle.runs.specs.Terms.{flush_all, flush_page, set_mode, switch_root};
ghost use Rattle.unit.specs.Promises.{Promised};

use crate::machine::Machine;
use memory::guest::{Frame, GuestMemory};
use memory::refusal::Refusal;
use mmu::exits::Exit;
use paging::access::{Address, Privilege};
use paging::format::PageFormat;
use policies::policy::EvictionPolicy;
use runs::laws::calls_lawful;

impl<M: GuestMemory, F: PageFormat, P: EvictionPolicy> Machine<M, F, P> {
    /// Checks every unsynchronised table against guest memory. It covers every page.
    pub fn flush_all(&mut self) -> Result<Exit, Refusal>
        ensures { Promised M.GuestMemory F.PageFormat P.EvictionPolicy flush_all self.old (exit_reply result) self.new }
    {
        calls_lawful::<F, P>();
        self.plain.flush_all()
    }

    /// Empties the leaf of an address under the root in force. It covers the page of the address.
    pub fn flush_page(&mut self, address: Address) -> Result<Exit, Refusal>
        ensures { Promised M.GuestMemory F.PageFormat P.EvictionPolicy (flush_page address) self.old (exit_reply result) self.new }
    {
        calls_lawful::<F, P>();
        self.plain.flush_page(address)
    }

    /// Puts another root in force, after a flush of all tables. It covers every page.
    pub fn switch(&mut self, root: Frame) -> Result<Exit, Refusal>
        ensures { Promised M.GuestMemory F.PageFormat P.EvictionPolicy (switch_root root) self.old (exit_reply result) self.new }
    {
        calls_lawful::<F, P>();
        self.plain.switch(root)
    }

    /// Sets the privilege of the accesses to come.
    pub fn set_mode(&mut self, mode: Privilege) -> Result<(), Refusal>
        ensures { Promised M.GuestMemory F.PageFormat P.EvictionPolicy (set_mode (privilege_number mode)) self.old (quiet_reply result) self.new }
    {
        calls_lawful::<F, P>();
        self.plain.set_mode(mode)
    }
}
