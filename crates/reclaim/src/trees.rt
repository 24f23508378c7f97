// The young blocks of a tree, given back.
ghost use Rattle.std.specs.Prelude.{◌≡◌, ◌+◌, IfErr, IfOk, MatchResult};
ghost use Rattle.faults.specs.declared.PoolCause.TheVariants.{NoPool};
ghost use Rattle.blocks.specs.Meanings.{owned};
ghost use Rattle.reclaim.specs.Giving.{Fewer, GivenBack};
ghost use Rattle.reclaim.specs.Trees.{TreeReady, YoungIn};

use crate::give::{freed_since, give_back};
use crate::leave::is_young;
use blocks::BlockAllocator;
use faults::PoolCause;
use records::rows::Pointer;
use tree::{MOST_HEIGHT, children};

// Gives back the young blocks of a tree, from the root down. No block below a pointer is younger than its own, so that
// the walk ends at one that is not young.
fn give_young<A: BlockAllocator>(
    allocator: &mut A,
    memory: &[u8],
    root: Option<Pointer>,
    height: u32,
    stamp: u32,
) -> Result<(), PoolCause>
    ensures sound { A.sound allocator.old → A.sound allocator.new }
    ensures fewer { A.sound allocator.old → Fewer (A.meaning allocator.old) (A.meaning allocator.new) }
    ensures given { A.sound allocator.old → TreeReady (A.meaning allocator.old) memory.now root height stamp → MatchResult result (λ _. GivenBack (A.meaning allocator.old) (A.meaning allocator.new) (YoungIn memory.now root height stamp)) (λ _. ⊥) }
    ensures cause { IfErr result (λ c. c ≡ NoPool) }
{
    let Some(top) = root else {
        return Ok(());
    };
    if !is_young(top, stamp) {
        return Ok(());
    }
    give_back(allocator, top.block)?;
    if height == 0 {
        return Ok(());
    }
    let below = children(memory, top)?;
    for child in &below {
        give_young(allocator, memory, *child, height - 1, stamp)?;
    }
    Ok(())
}

// Gives back the blocks of a tree that were born after the stamp, and answers how many.
pub fn give_tree<A: BlockAllocator>(
    allocator: &mut A,
    memory: &[u8],
    root: Option<Pointer>,
    height: u32,
    stamp: u32,
) -> Result<u32, PoolCause>
    ensures sound { A.sound allocator.old → A.sound allocator.new }
    ensures given { A.sound allocator.old → TreeReady (A.meaning allocator.old) memory.now root height stamp → MatchResult result (λ _. GivenBack (A.meaning allocator.old) (A.meaning allocator.new) (YoungIn memory.now root height stamp)) (λ _. ⊥) }
    ensures counted { A.sound allocator.old → IfOk result (λ given. owned (A.meaning allocator.new) + given ≡ owned (A.meaning allocator.old)) }
    ensures cause { IfErr result (λ c. c ≡ NoPool) }
{
    if height > MOST_HEIGHT {
        return Err(PoolCause::NoPool);
    }
    let free_before = allocator.free_count();
    give_young(allocator, memory, root, height, stamp)?;
    Ok(freed_since(allocator, free_before))
}
