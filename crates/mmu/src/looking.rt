//! What the slots answer of an address, and what is told or dropped of it.
ghost use Rattle.std.specs.Prelude.{◌≡◌};
ghost use Rattle.hits.specs.Hits.{copied_at};
ghost use Rattle.runs.specs.Unit.{drop_page, hit_by, hit_target, root_slot, tell_path};
ghost use Rattle.walk.specs.Numbers.{asked};
ghost use Rattle.walk.specs.Walk.{directory_index, table_index};

use crate::unit::Mmu;
use hits::looking::copied;
use memory::guest::Frame;
use paging::access::Address;
use paging::format::PageFormat;
use policies::policy::EvictionPolicy;
use slot::slots::{Place, SlotNumber, Thing};
use walk::fault::Access;
use walk::path::{directory_index, table_index};

impl<P: EvictionPolicy> Mmu<P> {
    /// The slot of a root's directory: 0 where none shadows it.
    pub fn root_slot(&self, root: Frame) -> SlotNumber
        ensures { result ≡ root_slot root self.now.table }
    {
        self.table.find(Thing::Directory(root)).unwrap_or(0)
    }

    /// The frame that an access reaches through the slots alone, where they answer it.
    #[tactic(auto, unfolding(runs::specs::Unit::hit_target))]
    pub fn hit<F: PageFormat>(&self, access: Access, root: Frame) -> Option<Frame>
        ensures { result ≡ hit_target F.PageFormat.format (asked access) root self.now.table }
    {
        self.hit_from::<F>(access, self.root_slot(root))
    }

    /// The same from a directory's slot on, for a caller that has sought it.
    pub fn hit_from<F: PageFormat>(&self, access: Access, directory: SlotNumber) -> Option<Frame>
        ensures { result ≡ hit_by F.PageFormat.format (asked access) (copied_at directory (directory_index access.address) (table_index access.address) self.now.table) }
    {
        let index = directory_index(access.address) as usize;
        let below = table_index(access.address) as usize;
        copied(&self.table, directory, index, below)?.hit::<F>(access.kind, access.privilege)
    }

    /// Empties the leaf or piece of an address, under the root's directory.
    #[tactic(auto, unfolding(runs::specs::Unit::drop_page))]
    pub fn drop_page(&mut self, root: Frame, address: Address)
        ensures table { self.new.table ≡ drop_page root address self.old.table }
        ensures policy { self.new.policy ≡ self.old.policy }
    {
        let index = directory_index(address) as usize;
        if let Place::Link { slot, .. } = self.table.place(self.root_slot(root), index) {
            self.table.empty_place(slot, table_index(address) as usize);
        }
    }

    /// Tells the policy of a directory's slot, and then of the slot below.
    pub fn tell_path(&mut self, directory: SlotNumber, below: SlotNumber)
        ensures table { self.new.table ≡ self.old.table }
        ensures order { P.EvictionPolicy.order self.new.policy ≡ tell_path P.EvictionPolicy.rule directory below (P.EvictionPolicy.order self.old.policy) }
    {
        self.policy.tell(directory);
        self.policy.tell(below);
    }
}
