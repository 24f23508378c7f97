use crate::{AnyAllocator, Make};
use blocks::{Bitmap, BlockAllocator};
use faults::MemoryCause;
use ranges::RangeMap;
use records::ranges::FreeRange;
use std::process::Abort;
use std::test::Fail;

// A call, what it answers, and how many blocks are free after it.
#[derive(Clone, Copy)]
enum Step {
    Takes(u32, u32),
    Short,
    Gives(u32, u32),
    NotOwned(u32),
}

fn perform<A: BlockAllocator>(rt: &impl Abort, map: &mut A, step: Step) -> Result<(), Fail> {
    match step {
        Step::Takes(block, free) => {
            assert_eq!(rt; map.take()?, block);
            assert!(rt; map.is_owned(block));
            assert_eq!(rt; map.free_count(), free);
            Ok(())
        }
        Step::Short => {
            assert_eq!(rt; map.take().err(), Some(MemoryCause::BlocksShort));
            Ok(())
        }
        Step::Gives(block, free) => {
            assert!(rt; map.give(block).is_ok());
            assert!(rt; !map.is_owned(block));
            assert_eq!(rt; map.free_count(), free);
            Ok(())
        }
        Step::NotOwned(block) => {
            assert!(rt; map.give(block).is_err());
            Ok(())
        }
    }
}

// Ten blocks in two bytes that held ones: a block given back waits until the cursor comes round to it.
#[test]
fn goes_round(rt: HostRuntime) -> Result<(), Fail> {
    let mut bytes = [255u8; 3];
    let (mut map, made) = Bitmap::new(&mut bytes, 10);
    made?;
    let steps = [
        Step::NotOwned(0),
        Step::Takes(0, 9),
        Step::Takes(1, 8),
        Step::Takes(2, 7),
        Step::Gives(1, 8),
        Step::NotOwned(1),
        Step::Takes(3, 7),
        Step::Takes(4, 6),
        Step::Takes(5, 5),
        Step::Takes(6, 4),
        Step::Takes(7, 3),
        Step::Takes(8, 2),
        Step::Takes(9, 1),
        Step::Takes(1, 0),
        Step::Short,
        Step::Gives(9, 1),
        Step::Gives(4, 2),
        Step::Takes(4, 1),
        Step::Takes(9, 0),
        Step::NotOwned(10),
    ];
    for step in steps {
        perform(&rt, &mut map, step)?;
    }
    assert!(rt; map.is_owned(9));
    assert!(rt; !map.is_owned(10));
    Ok(())
}

// What the lent ranges hold before means nothing.
const LENT: FreeRange = FreeRange {
    first: 3,
    length: 9,
};

// Seven blocks. On the right the free ranges after the call, as first-last.
#[test]
fn longest_first(rt: HostRuntime) -> Result<(), Fail> {
    let mut places = [LENT; 4];
    let (mut map, made) = RangeMap::new(&mut places, 7);
    made?;
    let steps = [
        Step::NotOwned(0),
        Step::Takes(0, 6), // 1-6
        Step::Takes(1, 5), // 2-6
        Step::Takes(2, 4), // 3-6
        Step::Gives(0, 5), // 0-0 3-6
        Step::NotOwned(0),
        Step::Takes(3, 4), // 0-0 4-6
        Step::Gives(1, 5), // 0-1 4-6: joined on the left
        Step::Takes(4, 4), // 0-1 5-6
        Step::Takes(0, 3), // 1-1 5-6: the lower of two
        Step::Gives(4, 4), // 1-1 4-6: joined on the right
        Step::Gives(2, 5), // 1-2 4-6
        Step::Gives(3, 6), // 1-6: joined on both sides
        Step::NotOwned(6),
        Step::NotOwned(7),
        Step::Takes(1, 5), // 2-6
        Step::Takes(2, 4),
        Step::Takes(3, 3),
        Step::Takes(4, 2),
        Step::Takes(5, 1),
        Step::Takes(6, 0),
        Step::Short,
        Step::Gives(0, 1), // four ranges in four places
        Step::Gives(2, 2),
        Step::Gives(4, 3),
        Step::Gives(6, 4),
        Step::Takes(0, 3),
    ];
    for step in steps {
        perform(&rt, &mut map, step)?;
    }
    Ok(())
}

// Makes an allocator of so many blocks over so many bytes or ranges.
fn make(rt: &impl Abort, make: Make, size: u32, room: usize, fits: bool) {
    let mut bytes = [255u8; 4097];
    let mut places = [LENT; 4];
    let (bits, ranges) = match make {
        Make::Bits => (room, 0),
        Make::Ranges => (0, room),
    };
    assert!(rt; bits <= 4097);
    assert!(rt; ranges <= 4);
    let (mut map, made) = AnyAllocator::new(make, size, &mut bytes[..bits], &mut places[..ranges]);
    assert_eq!(rt; made.is_ok(), fits);
    assert_eq!(rt; map.size(), if fits { size } else { 0 });
    assert_eq!(rt; map.free_count(), map.size());
    assert_eq!(rt; map.take().is_ok(), fits);
}

// Sizes are 1 to 32768, and eight blocks want a byte.
#[test]
fn bitmap_made_where_it_fits(rt: HostRuntime) {
    make(&rt, Make::Bits, 0, 1, false);
    make(&rt, Make::Bits, 1, 1, true);
    make(&rt, Make::Bits, 8, 1, true);
    make(&rt, Make::Bits, 9, 1, false);
    make(&rt, Make::Bits, 32_768, 4096, true);
    make(&rt, Make::Bits, 32_768, 4095, false);
    make(&rt, Make::Bits, 32_769, 4097, false);
}

// Two blocks want one place, and a third another.
#[test]
fn range_map_made_where_it_fits(rt: HostRuntime) {
    make(&rt, Make::Ranges, 0, 4, false);
    make(&rt, Make::Ranges, 1, 0, false);
    make(&rt, Make::Ranges, 1, 1, true);
    make(&rt, Make::Ranges, 2, 1, true);
    make(&rt, Make::Ranges, 3, 1, false);
    make(&rt, Make::Ranges, 8, 4, true);
    make(&rt, Make::Ranges, 9, 4, false);
    make(&rt, Make::Ranges, 32_769, 4, false);
}
