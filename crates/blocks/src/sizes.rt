// The sizes that an allocator can have.
ghost use Rattle.std.specs.Prelude.{◌≡◌, MatchResult};
ghost use Rattle.faults.specs.declared.MemoryCause.TheVariants.{BadShape};
ghost use Rattle.blocks.specs.Sizes.{SizeFits};

use faults::MemoryCause;

// The largest size.
pub const MOST_BLOCKS: u32 = 32_768;

// Whether an allocator of that size, which wants so many bytes or ranges, can be made over as many as there are.
pub fn check_size(size: u32, wanted: usize, room: usize) -> Result<(), MemoryCause>
    ensures value { MatchResult result (λ _. SizeFits size wanted room) (λ cause. (cause ≡ BadShape) × (SizeFits size wanted room → ⊥)) }
{
    if (1..=MOST_BLOCKS).contains(&size) && wanted <= room {
        Ok(())
    } else {
        Err(MemoryCause::BadShape)
    }
}
