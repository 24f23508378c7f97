// Free ranges, found by their first block.
ghost use Rattle.records.specs.Keys.{first_of, first_below};
ghost use Rattle.std.proofs.Common.{rules};

use ordered::keys::Key;
use ordered::records::Record;

// Blocks that are free, one after another.
#[derive(Clone, Copy, Debug, PartialEq, Eq)]
pub struct FreeRange {
    pub first: u32,
    pub length: u32,
}

impl FreeRange {
    // What ranges may be filled with before they are lent. A constant, like a row's.
    pub const UNUSED: FreeRange = FreeRange {
        first: 0,
        length: 0,
    };
}

// The first block of a range.
#[derive(Clone, Copy, Debug, PartialEq, Eq, PartialOrd, Ord)]
pub struct FirstBlock(pub u32);

impl Key for FirstBlock {
    ghost below = { first_below };

    ghost laws = { Prim.search rules };
}

impl Record for FreeRange {
    type Key = FirstBlock;

    ghost keyed = { first_of };

    fn key(&self) -> FirstBlock {
        FirstBlock(self.first)
    }
}
