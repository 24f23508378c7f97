// The blocks of an old path.
ghost use Rattle.std.specs.Prelude.{◌≡◌, ◌+◌, ◌<◌, length, if◌then◌else◌, IfErr, MatchResult, nat_lt};
ghost use Rattle.faults.specs.declared.PoolCause.TheVariants.{NoPool};
ghost use Rattle.model.specs.Datasets.{dead_of};
ghost use Rattle.ordered.specs.Lent.{records, room};
ghost use Rattle.reclaim.specs.Leaving.{DeadOrdered, Departed, Ready, sunk};
ghost use Rattle.reclaim.specs.Leavers.{Able, Left, is_sunk};

use crate::give::give_back;
use blocks::BlockAllocator;
use faults::PoolCause;
use ordered::tables::Table;
use records::dead::DeadRecord;
use records::rows::Pointer;
use tree::LEVELS;

// Whether the block was born after the stamp.
pub(crate) fn is_young(pointer: Pointer, stamp: u32) -> bool
    ensures value { result ≡ nat_lt stamp pointer.birth }
{
    pointer.birth > stamp
}

// The record of a pointer in the dead list of a dataset.
fn record_of(dataset: u32, pointer: Pointer) -> DeadRecord
    ensures value { result ≡ dead_of dataset pointer }
{
    DeadRecord {
        dataset,
        birth: pointer.birth,
        block: pointer.block,
    }
}

// Whether there is a pointer, and it goes to the dead list.
fn sinks(pointer: Option<Pointer>, stamp: u32) -> bool
    ensures value { result ≡ is_sunk pointer stamp }
{
    pointer.is_some_and(|leaver| !is_young(leaver, stamp))
}

// How many of the pointers of an old path go to the dead list.
#[tactic(auto, using(crate::proofs::Sinks::sunk_count))]
pub fn sinking_count(old: &[Option<Pointer>; LEVELS], stamp: u32) -> usize
    ensures value { result ≡ length (sunk old.now stamp) }
{
    old.iter().filter(|pointer| sinks(**pointer, stamp)).count()
}

// One pointer leaves the dataset; true where its block is given back.
fn leave<A: BlockAllocator>(
    allocator: &mut A,
    dead: &mut Table<DeadRecord>,
    dataset: u32,
    stamp: u32,
    pointer: Pointer,
) -> Result<bool, PoolCause>
    ensures sound { A.sound allocator.old → A.sound allocator.new }
    ensures room { room dead.new ≡ room dead.old }
    ensures ordered { DeadOrdered dead.old → DeadOrdered dead.new }
    ensures left { A.sound allocator.old → DeadOrdered dead.old → Able (A.meaning allocator.old) (records dead.old) (room dead.old) dataset stamp pointer → MatchResult result (λ given. Left (A.meaning allocator.old) (A.meaning allocator.new) (records dead.old) (records dead.new) dataset stamp pointer given) (λ _. ⊥) }
    ensures cause { IfErr result (λ c. c ≡ NoPool) }
{
    if is_young(pointer, stamp) {
        give_back(allocator, pointer.block)?;
        Ok(true)
    } else {
        dead.insert(record_of(dataset, pointer))
            .map_err(|_| PoolCause::NoPool)?;
        Ok(false)
    }
}

// One more where a block was given back.
fn tally(given: u32, gave: bool) -> u32
    requires { given < 5 }
    ensures value { result ≡ given + (if gave then 1 else 0) }
{
    given + u32::from(gave)
}

// The pointers of an old path leave the dataset, from the root down; answers how many blocks are given back.
pub fn leave_path<A: BlockAllocator>(
    allocator: &mut A,
    dead: &mut Table<DeadRecord>,
    dataset: u32,
    stamp: u32,
    old: &[Option<Pointer>; LEVELS],
) -> Result<u32, PoolCause>
    ensures sound { A.sound allocator.old → A.sound allocator.new }
    ensures room { room dead.new ≡ room dead.old }
    ensures ordered { DeadOrdered dead.old → DeadOrdered dead.new }
    ensures left { A.sound allocator.old → DeadOrdered dead.old → Ready (A.meaning allocator.old) (records dead.old) (room dead.old) dataset stamp old.now → MatchResult result (λ given. Departed (A.meaning allocator.old) (A.meaning allocator.new) (records dead.old) (records dead.new) dataset stamp old.now given) (λ _. ⊥) }
    ensures cause { IfErr result (λ c. c ≡ NoPool) }
{
    let mut given = 0;
    // A loop: of a closure that changes the allocator and the table a proof would know nothing.
    for pointer in old {
        if let Some(leaver) = *pointer {
            let gave = leave(allocator, dead, dataset, stamp, leaver)?;
            given = tally(given, gave);
        }
    }
    Ok(given)
}
