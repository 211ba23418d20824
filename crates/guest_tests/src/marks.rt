//! Walks that arrive, and the marks that they leave.
use memory::flat::Flat;
use memory::guest::GuestMemory;
use paging::access::{Address, Kind, Privilege};
use paging::format::PageFormat;
use paging::sv32::Sv32;
use paging::x86::X86;
use std::test::Fail;
use walk::fault::Access;
use walk::marking::{Mark, Marks, mark_entries};
use walk::walking::walk;

/// The frame that a supervisor's access from root 0 reaches, and the marks that it leaves.
fn go<F: PageFormat>(
    memory: &mut Flat,
    address: Address,
    kind: Kind,
) -> Result<(u32, Marks), Fail> {
    let access = Access {
        address,
        kind,
        privilege: Privilege::Supervisor,
    };
    let walked = walk::<F, Flat>(memory, 0, access)?;
    Ok((walked.target, mark_entries::<F, Flat>(memory, kind, walked)))
}

/// A directory that is its own table: one word is marked as the directory's, and then as the table's.
#[test]
fn one_word_twice(rt: HostRuntime) -> Result<(), Fail> {
    let mut memory = Flat::zeroed(rt.alloc(), 4)?;
    assert_eq!(rt; memory.write(0, 1023, 0x3), Ok(()));
    let (target, marks) = go::<X86>(&mut memory, 0xffff_f010, Kind::Store)?;
    assert_eq!(rt; target, 0);
    assert_eq!(rt;
        marks.directory,
        Some(Mark {
            frame: 0,
            index: 1023,
            word: 0x23,
        })
    );
    assert_eq!(rt;
        marks.table,
        Some(Mark {
            frame: 0,
            index: 1023,
            word: 0x63,
        })
    );
    assert_eq!(rt; memory.read(0, 1023), Ok(0x63));
    assert_eq!(rt; memory.write(0, 1023, 0x3), Ok(()));
    let (_, marks) = go::<X86>(&mut memory, 0xffff_f010, Kind::Load)?;
    assert_eq!(rt;
        marks.directory,
        Some(Mark {
            frame: 0,
            index: 1023,
            word: 0x23,
        })
    );
    assert_eq!(rt; marks.table, None);
    Ok(())
}

/// Marks are left once, and a store adds its own.
#[test]
fn marks_once(rt: HostRuntime) -> Result<(), Fail> {
    let mut memory = Flat::zeroed(rt.alloc(), 4)?;
    assert_eq!(rt; memory.write(0, 1, 0x401), Ok(()));
    assert_eq!(rt; memory.write(1, 2, 0x807), Ok(()));
    let (target, marks) = go::<Sv32>(&mut memory, 0x0040_2000, Kind::Load)?;
    assert_eq!(rt; target, 2);
    assert_eq!(rt;
        marks,
        Marks {
            directory: None,
            table: Some(Mark {
                frame: 1,
                index: 2,
                word: 0x847,
            }),
        }
    );
    let (_, marks) = go::<Sv32>(&mut memory, 0x0040_2ffc, Kind::Load)?;
    assert_eq!(rt;
        marks,
        Marks {
            directory: None,
            table: None,
        }
    );
    let (_, marks) = go::<Sv32>(&mut memory, 0x0040_2ffc, Kind::Store)?;
    assert_eq!(rt;
        marks,
        Marks {
            directory: None,
            table: Some(Mark {
                frame: 1,
                index: 2,
                word: 0x8c7,
            }),
        }
    );
    assert_eq!(rt; memory.read(0, 1), Ok(0x401));
    assert_eq!(rt; memory.read(1, 2), Ok(0x8c7));
    Ok(())
}

/// A large page: the table index picks the frame, and the directory's word is the one that is marked.
#[test]
fn large_page(rt: HostRuntime) -> Result<(), Fail> {
    let mut memory = Flat::zeroed(rt.alloc(), 4)?;
    assert_eq!(rt; memory.write(0, 2, 0x83), Ok(()));
    let (target, marks) = go::<X86>(&mut memory, 0x0080_3004, Kind::Store)?;
    assert_eq!(rt; target, 3);
    assert_eq!(rt;
        marks,
        Marks {
            directory: Some(Mark {
                frame: 0,
                index: 2,
                word: 0xe3,
            }),
            table: None,
        }
    );
    assert_eq!(rt; memory.write(0, 2, 0x7), Ok(()));
    let (target, marks) = go::<Sv32>(&mut memory, 0x0080_3004, Kind::Store)?;
    assert_eq!(rt; target, 3);
    assert_eq!(rt;
        marks,
        Marks {
            directory: Some(Mark {
                frame: 0,
                index: 2,
                word: 0xc7,
            }),
            table: None,
        }
    );
    Ok(())
}
