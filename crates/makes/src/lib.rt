// The two makes of allocator behind one type, for a caller that chooses between them as it runs.
// Proved: whichever was chosen is an allocator with the meaning of its make; a new one is of the make that was asked
// for, is refused just where that make refuses, and owns nothing.
#![tactic(auto)]

ghost use Rattle.std.specs.Prelude.{◌≡◌, ℕ, false, length, MatchResult};
ghost use Rattle.faults.specs.declared.MemoryCause.TheVariants.{BadShape};
ghost use Rattle.makes.specs.Makes.{make_of, meaning_of, Sound, Suits};

use blocks::{Bitmap, BlockAllocator, NotOwned};
use faults::MemoryCause;
use ranges::RangeMap;
use records::ranges::FreeRange;

#[cfg(test)]
mod tests;

// The makes of allocator.
#[derive(Clone, Copy, Debug, PartialEq, Eq)]
pub enum Make {
    Bits,
    Ranges,
}

// An allocator of either make. An enum, since a caller chooses as it runs and keeps the allocator by value: a `dyn`
// can't be a field.
#[derive(Drop)]
pub enum AnyAllocator<'m> {
    Bits(Bitmap<'m>),
    Ranges(RangeMap<'m>),
}

// Does the same with an allocator of either make.
macro_rules! for_both {
    ($any:expr, $map:pat => $result:expr) => {
        match $any {
            AnyAllocator::Bits($map) => $result,
            AnyAllocator::Ranges($map) => $result,
        }
    };
}

impl<'m> AnyAllocator<'m> {
    // An allocator of that make over the memory that it needs, which owns nothing; where it is refused, of size 0. A pair,
    // since a refused one is an allocator too.
    pub fn new(
        make: Make,
        size: u32,
        bits: &'m mut [u8],
        ranges: &'m mut [FreeRange],
    ) -> (AnyAllocator<'m>, Result<(), MemoryCause>)
        ensures make { make_of result.0 ≡ make }
        ensures sound { Sound result.0 }
        ensures empty { (k : ℕ) → (meaning_of result.0).owns k ≡ false }
        ensures made { MatchResult result.1 (λ _. Suits make size (length bits.old) (length ranges.old) × ((meaning_of result.0).size ≡ size)) (λ c. (c ≡ BadShape) × (Suits make size (length bits.old) (length ranges.old) → ⊥) × ((meaning_of result.0).size ≡ 0)) }
    {
        match make {
            Make::Bits => {
                let (map, made) = Bitmap::new(bits, size);
                (AnyAllocator::Bits(map), made)
            }
            Make::Ranges => {
                let (map, made) = RangeMap::new(ranges, size);
                (AnyAllocator::Ranges(map), made)
            }
        }
    }
}

impl BlockAllocator for AnyAllocator<'_> {
    ghost sound = { Sound };

    ghost meaning = { meaning_of };

    fn size(&self) -> u32 {
        for_both!(self, map => map.size())
    }

    fn free_count(&self) -> u32 {
        for_both!(self, map => map.free_count())
    }

    fn is_owned(&self, n: u32) -> bool {
        for_both!(self, map => map.is_owned(n))
    }

    fn take(&mut self) -> Result<u32, MemoryCause> {
        for_both!(self, map => map.take())
    }

    fn give(&mut self, n: u32) -> Result<(), NotOwned> {
        for_both!(self, map => map.give(n))
    }
}
