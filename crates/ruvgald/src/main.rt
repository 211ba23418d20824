//! Walks accesses through the page tables of small guest memories, and prints where each comes out.
#![tactic(auto)]

mod guests;
mod report;

use guests::{FRAMES, ROOT, Words, furnish};
use memory::flat::Flat;
use memory::guest::GuestMemory;
use memory::partition::Partition;
use paging::access::{Address, Kind, Privilege};
use paging::format::PageFormat;
use paging::sv32::Sv32;
use paging::x86::X86;
use report::{Line, Reached};
use walk::fault::Access;
use walk::marking::mark_entries;
use walk::walking::walk;

/// The accesses that are tried in each memory, in this order.
const ACCESSES: [(Address, Kind, Privilege); 14] = [
    (0x0000_1004, Kind::Load, Privilege::User),
    (0x0000_1008, Kind::Store, Privilege::User),
    (0x0000_1008, Kind::Store, Privilege::User),
    (0x0000_1000, Kind::Fetch, Privilege::Supervisor),
    (0x0000_2000, Kind::Store, Privilege::Supervisor),
    (0x0000_3000, Kind::Load, Privilege::Supervisor),
    (0x0000_4000, Kind::Load, Privilege::Supervisor),
    (0x0040_5000, Kind::Load, Privilege::Supervisor),
    (0x0043_2000, Kind::Fetch, Privilege::Supervisor),
    (0x0080_0000, Kind::Fetch, Privilege::User),
    (0x00c0_0000, Kind::Store, Privilege::User),
    (0x0100_0000, Kind::Load, Privilege::User),
    (0xffc0_0004, Kind::Load, Privilege::Supervisor),
    (0xffff_f010, Kind::Store, Privilege::Supervisor),
];

/// Writes the page tables into a memory, walks each access there, marks what it read, and prints a line.
fn show<F: PageFormat, M: GuestMemory>(
    rt: &HostRuntime,
    memory: &mut M,
    words: &Words,
) -> anyhow::Result<()> {
    furnish(memory, words);
    for (address, kind, privilege) in ACCESSES {
        let access = Access {
            address,
            kind,
            privilege,
        };
        let came = walk::<F, M>(memory, ROOT, access).map(|walked| Reached {
            target: walked.target,
            marks: mark_entries::<F, M>(memory, kind, walked),
        });
        println!(rt; "{}", Line { access, came })?;
    }
    Ok(())
}

/// The same over a flat memory, and over a partition in the middle of a larger one.
fn both<F: PageFormat>(rt: &HostRuntime, format: &str, words: &Words) -> anyhow::Result<()> {
    let mut flat = Flat::zeroed(rt.alloc(), FRAMES)?;
    println!(rt; "{format} over a flat memory")?;
    show::<F, Flat>(rt, &mut flat, words)?;
    let larger = Flat::zeroed(rt.alloc(), 3 * FRAMES)?;
    match Partition::new(larger, FRAMES, FRAMES) {
        Ok(mut part) => {
            println!(rt; "{format} over a partition")?;
            show::<F, Partition<Flat>>(rt, &mut part, words)
        }
        Err(refused) => {
            println!(rt; "refused {}", refused.refusal)?;
            Ok(())
        }
    }
}

fn run(rt: &HostRuntime) -> anyhow::Result<()> {
    both::<Sv32>(rt, "sv32", &guests::SV32_WORDS)?;
    both::<X86>(rt, "x86", &guests::X86_WORDS)
}

fn main(rt: HostRuntime) -> anyhow::Result<()> {
    run(&rt)
}
