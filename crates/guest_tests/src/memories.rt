//! Flat memories and partitions at their edges.
use memory::flat::Flat;
use memory::guest::{Cause, Frame, GuestMemory, Word};
use memory::partition::Partition;
use std::alloc::{AllocError, Global};
use std::process::Abort;
use std::test::Fail;

const BEYOND: Cause = Cause { number: 1 };

const OUTSIDE: Cause = Cause { number: 2 };

/// A flat memory of four frames and a rest.
fn four(heap: Global) -> Result<Flat, AllocError> {
    Ok(Flat {
        store: vec![in heap; 0u32; 4 * 1024 + 1023]?,
    })
}

/// A frame, an index, and what a read there answers.
type Read = (Frame, u32, Result<Word, Cause>);

fn all_answer<M: GuestMemory>(rt: &impl Abort, memory: &M, reads: &[Read]) {
    for (frame, index, answer) in reads {
        assert_eq!(rt; memory.read(*frame, *index), *answer);
    }
}

const FLAT_READS: [Read; 8] = [
    (3, 1023, Ok(7)),
    (3, 1022, Ok(0)),
    (4, 0, Err(BEYOND)),
    (0xffff_ffff, 0xffff_ffff, Err(BEYOND)),
    (0, 5, Ok(11)),
    (1, 5, Ok(0)),
    (0, 1029, Ok(11)),
    (0, 0xffff_fc05, Ok(11)),
];

#[test]
fn flat_edges(rt: HostRuntime) -> Result<(), Fail> {
    let mut memory = four(rt.alloc())?;
    assert_eq!(rt; memory.write(3, 1023, 7), Ok(()));
    assert_eq!(rt; memory.write(4, 0, 9), Err(BEYOND));
    assert_eq!(rt; memory.write(0, 1024 + 5, 11), Ok(()));
    all_answer(&rt, &memory, &FLAT_READS);
    Ok(())
}

/// More words than a memory may have frames for.
#[test]
fn flat_limit(rt: HostRuntime) -> Result<(), Fail> {
    let mut memory = Flat::zeroed(rt.alloc(), 4097)?;
    assert_eq!(rt; memory.write(4095, 1, 3), Ok(()));
    assert_eq!(rt; memory.read(4095, 1025), Ok(3));
    assert_eq!(rt; memory.write(4096, 1, 3), Err(BEYOND));
    assert_eq!(rt; memory.read(4096, 1), Err(BEYOND));
    Ok(())
}

/// A first frame, a count, and the number of the refusal, if it is one.
const RANGES: [(Frame, Frame, Option<u8>); 8] = [
    (0, 0, Some(9)),
    (4096, 0, Some(9)),
    (0, 4097, Some(9)),
    (4096, 1, Some(9)),
    (0xffff_ffff, 2, Some(9)),
    (2, 0xffff_ffff, Some(9)),
    (0, 4096, None),
    (4095, 1, None),
];

#[test]
fn partition_range(rt: HostRuntime) -> Result<(), Fail> {
    for (first, count, number) in RANGES {
        let made = Partition::new(four(rt.alloc())?, first, count);
        assert_eq!(rt; made.err().map(|refused| u8::from(refused.refusal)), number);
    }
    Ok(())
}

const OUTER_READS: [Read; 3] = [(1, 8, Ok(5)), (2, 8, Err(BEYOND)), (5, 8, Err(OUTSIDE))];

const INNER_READS: [Read; 4] = [
    (0, 8, Ok(6)),
    (1, 0, Err(BEYOND)),
    (4, 0, Err(OUTSIDE)),
    (7, 0, Err(OUTSIDE)),
];

/// A partition of a partition: each cause is that of the memory which lacks the frame.
#[test]
fn partition_of_partition(rt: HostRuntime) -> Result<(), Fail> {
    let mut whole = four(rt.alloc())?;
    assert_eq!(rt; whole.write(3, 8, 5), Ok(()));
    let part = Partition::new(whole, 2, 5).map_err(|_| Fail::new("refused"))?;
    all_answer(&rt, &part, &OUTER_READS);
    let mut inner = Partition::new(part, 1, 7).map_err(|_| Fail::new("refused"))?;
    assert_eq!(rt; inner.read(0, 8), Ok(5));
    assert_eq!(rt; inner.write(0, 1032, 6), Ok(()));
    assert_eq!(rt; inner.write(1, 0, 1), Err(BEYOND));
    all_answer(&rt, &inner, &INNER_READS);
    Ok(())
}

/// A refused partition hands its memory back as it was.
#[test]
fn refused_memory_back(rt: HostRuntime) -> Result<(), Fail> {
    let mut whole = four(rt.alloc())?;
    assert_eq!(rt; whole.write(1, 1, 4), Ok(()));
    let Err(refused) = Partition::new(whole, 1, 4096) else {
        return Err(Fail::new("accepted"));
    };
    assert_eq!(rt; refused.back.read(1, 1), Ok(4));
    Ok(())
}
