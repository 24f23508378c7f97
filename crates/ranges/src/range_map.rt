// A map of free ranges, and its calls.
ghost use Rattle.std.specs.Prelude.{◌≡◌, ℕ, false};
ghost use Rattle.blocks.specs.Meanings.{Giving, Taking};
ghost use Rattle.ranges.specs.Maps.{map_of, Makes, Sound, TakesLongest};
ghost use Rattle.ranges.specs.Steps.{Rest};

use crate::free::{last_up_to, longest, put_back, take_first};
use crate::range::{is_out, left_of, whole};
use blocks::{BlockAllocator, NotOwned, check_size};
use faults::MemoryCause;
use ordered::tables::Table;
use records::ranges::FreeRange;

// An allocator over the caller's ranges.
#[derive(Drop)]
pub struct RangeMap<'m> {
    ranges: Table<'m, FreeRange>,
    size: u32,
    // How many blocks are free.
    spare: u32,
}

impl<'m> RangeMap<'m> {
    // A map that owns nothing, whatever the places held, and writes the first of them alone; where it is refused, of
    // size 0, and it writes none. A pair, and no `Result` of a map, since a refused one is an allocator too.
    #[tactic(auto, using(crate::proofs::Maps::new_map))]
    pub fn new(places: &'m mut [FreeRange], size: u32) -> (RangeMap<'m>, Result<(), MemoryCause>)
        ensures made { Makes size places.old result.0 result.1 }
        ensures empty { (k : ℕ) → (map_of result.0).owns k ≡ false }
        ensures sound { Sound result.0 }
    {
        let made = check_size(size, (size as usize).div_ceil(2), places.len());
        let size = made.map_or(0, |()| size);
        let mut ranges = Table::new(places);
        if size > 0 {
            let _ = ranges.insert(whole(size));
        }
        let map = RangeMap {
            ranges,
            size,
            spare: size,
        };
        (map, made)
    }
}

impl BlockAllocator for RangeMap<'_> {
    ghost sound = { Sound };

    ghost meaning = { map_of };

    fn size(&self) -> u32 {
        self.size
    }

    fn free_count(&self) -> u32 {
        self.spare
    }

    #[tactic(auto, using(crate::proofs::Maps::looked))]
    fn is_owned(&self, n: u32) -> bool {
        is_out(self.size, last_up_to(&self.ranges, n), n)
    }

    // The first block of the longest range, the lowest among equals.
    #[tactic(auto, using(crate::proofs::Maps::all_held, crate::proofs::Lasts::found_longest, crate::proofs::Runs::longest_run, crate::proofs::Maps::took_sound))]
    fn take(&mut self) -> Result<u32, MemoryCause>
        ensures takes { Sound self.old → Taking (map_of self.old) (map_of self.new) result }
        ensures sound { Sound self.old → Sound self.new }
        ensures longest { Sound self.old → TakesLongest self.old result }
        ensures rest { Sound self.old → Rest self.old.size self.old.ranges self.new.ranges }
    {
        let range = longest(self.ranges.records()).ok_or(MemoryCause::BlocksShort)?;
        take_first(&mut self.ranges, range);
        self.spare = self.spare.saturating_sub(1);
        Ok(range.first)
    }

    #[tactic(auto, using(crate::proofs::Maps::looked))]
    fn give(&mut self, n: u32) -> Result<(), NotOwned>
        ensures gives { Sound self.old → Giving (map_of self.old) n (map_of self.new) result }
        ensures sound { Sound self.old → Sound self.new }
        ensures rest { Sound self.old → Rest self.old.size self.old.ranges self.new.ranges }
    {
        let range = last_up_to(&self.ranges, n);
        if !is_out(self.size, range, n) {
            return Err(NotOwned);
        }
        put_back(&mut self.ranges, left_of(range, n), n);
        self.spare = self.spare.saturating_add(1);
        Ok(())
    }
}
