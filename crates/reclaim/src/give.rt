// Blocks given back one after another.
ghost use Rattle.std.specs.Prelude.{◌≡◌, ◌+◌, ◌-◌, false, length, IfErr, IfOk, IsOk, MatchResult};
ghost use Rattle.faults.specs.declared.PoolCause.TheVariants.{NoPool};
ghost use Rattle.blocks.specs.Meanings.{free, owned};
ghost use Rattle.reclaim.specs.Giving.{Fewer, Gave, GivenBack, ListReady, InList};

use blocks::BlockAllocator;
use faults::PoolCause;
use records::dead::DeadRecord;

// Gives back a block.
#[tactic(auto, using(crate::proofs::Sets::fewer_gave, crate::proofs::Sets::fewer_unchanged))]
pub(crate) fn give_back<A: BlockAllocator>(allocator: &mut A, block: u32) -> Result<(), PoolCause>
    ensures sound { A.sound allocator.old → A.sound allocator.new }
    ensures gave { A.sound allocator.old → MatchResult result (λ _. Gave (A.meaning allocator.old) block (A.meaning allocator.new)) (λ _. (A.meaning allocator.old).owns block ≡ false) }
    ensures fewer { A.sound allocator.old → Fewer (A.meaning allocator.old) (A.meaning allocator.new) }
    ensures cause { IfErr result (λ c. c ≡ NoPool) }
{
    allocator.give(block).map_err(|_| PoolCause::NoPool)
}

// How many more blocks are free than there were.
pub(crate) fn freed_since<A: BlockAllocator>(allocator: &A, free_before: u32) -> u32
    ensures value { A.sound allocator.now → result ≡ free (A.meaning allocator.now) - free_before }
{
    allocator.free_count().saturating_sub(free_before)
}

// Gives back the block of every record of a list, and answers how many.
pub fn give_list<A: BlockAllocator>(
    allocator: &mut A,
    list: &[DeadRecord],
) -> Result<u32, PoolCause>
    ensures sound { A.sound allocator.old → A.sound allocator.new }
    ensures granted { A.sound allocator.old → ListReady (A.meaning allocator.old) list.now → IsOk result }
    ensures given { A.sound allocator.old → IfOk result (λ given. (given ≡ length list.now) × GivenBack (A.meaning allocator.old) (A.meaning allocator.new) (InList list.now)) }
    ensures counted { A.sound allocator.old → IfOk result (λ given. owned (A.meaning allocator.new) + given ≡ owned (A.meaning allocator.old)) }
    ensures cause { IfErr result (λ c. c ≡ NoPool) }
{
    let free_before = allocator.free_count();
    // A loop: of a closure that changes the allocator a proof would know nothing.
    for record in list {
        give_back(allocator, record.block)?;
    }
    Ok(freed_since(allocator, free_before))
}
