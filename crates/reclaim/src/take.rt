// The blocks of a new path.
ghost use Rattle.std.specs.Prelude.{◌≡◌, ◌<◌, ◌≤◌, MatchResult, OnOk};
ghost use Rattle.faults.specs.declared.MemoryCause.TheVariants.{BlocksShort};
ghost use Rattle.blocks.specs.Meanings.{Unchanged, free};
ghost use Rattle.reclaim.specs.Taking.{Took};

use blocks::BlockAllocator;
use faults::MemoryCause;
use tree::LEVELS;

// Takes so many blocks, or none where fewer are free. A path has at most five.
pub fn take_path<A: BlockAllocator>(
    allocator: &mut A,
    count: u32,
) -> Result<[u32; LEVELS], MemoryCause>
    ensures took { A.sound allocator.old → MatchResult result (λ path. Took (A.meaning allocator.old) (A.meaning allocator.new) path count) (λ c. (c ≡ BlocksShort) × (count ≤ 5 → free (A.meaning allocator.old) < count) × Unchanged (A.meaning allocator.old) (A.meaning allocator.new)) }
    ensures sound { A.sound allocator.old → A.sound allocator.new }
    ensures few { OnOk result (count ≤ 5) }
{
    if count as usize > LEVELS || allocator.free_count() < count {
        return Err(MemoryCause::BlocksShort);
    }
    let mut path = [0; LEVELS];
    // By index: of an array that an iterator wrote a proof knows the length alone.
    for depth in 0..count as usize {
        path[depth] = allocator.take()?;
    }
    Ok(path)
}
