// The questions that are put before a call, each with the cause of its refusal.
ghost use Rattle.std.specs.Prelude.{◌≡◌, ℕ, ◌+◌, ◌*◌, ◌^◌, ◌<◌, ◌≤◌, true, false, length, Some, None, Option, MatchResult, ◌≢◌};
ghost use Rattle.faults.specs.declared.PoolCause.TheVariants.{DatasetNumber, HasClones, HasSnapshots, NoDataset, NumberUsed, OutOfRange, WrongKind};
ghost use Rattle.faults.specs.declared.MemoryCause.TheVariants.{BadShape, BlocksShort, DeadFull, GroupsSpent, NotEmpty, RowsFull};
ghost use Rattle.blocks.specs.Meanings.{free};
ghost use Rattle.records.specs.declared.rows.Kind.TheVariants.{Head, Snapshot};
ghost use Rattle.model.specs.Limits.{IsDatasetNumber, DeadRoom, Height, PoolSize, RowRoom};
ghost use Rattle.ordered.specs.Lent.{records, room};
ghost use Rattle.pool.specs.Pools.{HasOrigin, RowsOrdered, in_rows};
ghost use Rattle.tree.specs.Trees.{block_size, fan};

use crate::{LAST_GROUP, MOST_DEAD, MOST_ROWS};
use blocks::{BlockAllocator, MOST_BLOCKS};
use faults::{MemoryCause, PoolCause};
use ordered::tables::Table;
use records::dead::DeadRecord;
use records::rows::{Kind, Row};
use tree::{BLOCK_BYTES, FAN, MOST_HEIGHT};

// A no is a refusal with that cause.
fn ask<C: Drop>(yes: bool, cause: C) -> Result<(), C>
    ensures cases { MatchResult result (λ _. yes ≡ true) (λ c. (c ≡ cause) × (yes ≡ false)) }
{
    yes.then_some(()).ok_or(cause)
}

// Is it 1 to 999?
pub fn dataset_number(number: u32) -> Result<(), PoolCause>
    ensures cases { MatchResult result (λ _. IsDatasetNumber number) (λ c. (c ≡ DatasetNumber) × (IsDatasetNumber number → ⊥)) }
{
    ask((1..=999).contains(&number), PoolCause::DatasetNumber)
}

// Is it 1 to 4?
pub fn height(height: u32) -> Result<(), PoolCause>
    ensures cases { MatchResult result (λ _. Height height) (λ c. (c ≡ OutOfRange) × (Height height → ⊥)) }
{
    ask((1..=4).contains(&height), PoolCause::OutOfRange)
}

// Do block memory of so many bytes and two tables of so many places suit a pool of that size?
pub fn shape(size: u32, memory: usize, rows: usize, dead: usize) -> Result<(), MemoryCause>
    ensures cases { MatchResult result (λ _. PoolSize size × (memory ≡ block_size * size) × RowRoom rows × DeadRoom dead) (λ c. (c ≡ BadShape) × (PoolSize size × (memory ≡ block_size * size) × RowRoom rows × DeadRoom dead → ⊥)) }
{
    let blocks = (1..=MOST_BLOCKS).contains(&size) && memory == BLOCK_BYTES * size as usize;
    if blocks && (1..=MOST_ROWS).contains(&rows) && (1..=MOST_DEAD).contains(&dead) {
        Ok(())
    } else {
        Err(MemoryCause::BadShape)
    }
}

// Does the allocator own nothing?
pub fn owns_nothing<A: BlockAllocator>(allocator: &A) -> Result<(), MemoryCause>
    ensures cases { A.sound allocator.now → MatchResult result (λ _. (b : ℕ) → (A.meaning allocator.now).owns b ≡ false) (λ c. (c ≡ NotEmpty) × (((b : ℕ) → (A.meaning allocator.now).owns b ≡ false) → ⊥)) }
{
    let free = allocator.free_count();
    ask(free == allocator.size(), MemoryCause::NotEmpty)
}

// Has no row that number?
pub fn unused(rows: &Table<Row>, number: u32) -> Result<(), PoolCause>
    ensures cases { RowsOrdered rows.now → MatchResult result (λ _. in_rows rows.now number ≡ None) (λ c. (c ≡ NumberUsed) × (in_rows rows.now number ≢ None)) }
{
    ask(rows.get(number).is_none(), PoolCause::NumberUsed)
}

// Is there a place for one more row?
pub fn free_row(rows: &Table<Row>) -> Result<(), MemoryCause>
    ensures cases { MatchResult result (λ _. length (records rows.now) < room rows.now) (λ c. (c ≡ RowsFull) × (length (records rows.now) < room rows.now → ⊥)) }
{
    ask(!rows.is_full(), MemoryCause::RowsFull)
}

// Does the dataset exist? Then its row.
pub fn existing(rows: &Table<Row>, number: u32) -> Result<Row, PoolCause>
    ensures cases { RowsOrdered rows.now → MatchResult result (λ row. in_rows rows.now number ≡ Some row) (λ c. (c ≡ NoDataset) × (in_rows rows.now number ≡ None)) }
{
    rows.get(number).ok_or(PoolCause::NoDataset)
}

// Is it a head?
pub fn head(row: Row) -> Result<(), PoolCause>
    ensures cases { MatchResult result (λ _. (o : Option ℕ) × (row.kind ≡ Head o)) (λ c. (c ≡ WrongKind) × ((o : Option ℕ) → row.kind ≢ Head o)) }
{
    ask(matches!(row.kind, Kind::Head { .. }), PoolCause::WrongKind)
}

// Is it a snapshot?
pub fn snapshot(row: Row) -> Result<(), PoolCause>
    ensures cases { MatchResult result (λ _. (t : ℕ) × (row.kind ≡ Snapshot t)) (λ c. (c ≡ WrongKind) × ((t : ℕ) → row.kind ≢ Snapshot t)) }
{
    ask(
        matches!(row.kind, Kind::Snapshot { .. }),
        PoolCause::WrongKind,
    )
}

// Is it the origin of no head?
pub fn no_clones(rows: &Table<Row>, number: u32) -> Result<(), PoolCause>
    ensures cases { RowsOrdered rows.now → MatchResult result (λ _. (m : ℕ) → HasOrigin rows.now m number → ⊥) (λ c. (c ≡ HasClones) × ((m : ℕ) × HasOrigin rows.now m number)) }
{
    let origin = Some(number);
    let cloned = rows
        .records()
        .iter()
        .any(|row| row.kind == Kind::Head { origin });
    ask(!cloned, PoolCause::HasClones)
}

// Is a head's previous its origin? Then it has no snapshots of its own.
pub fn no_snapshots(row: Row) -> Result<(), PoolCause>
    ensures cases { MatchResult result (λ _. (o : Option ℕ) → row.kind ≡ Head o → row.previous ≡ o) (λ c. (c ≡ HasSnapshots) × ((o : Option ℕ) × (row.kind ≡ Head o) × (row.previous ≢ o))) }
{
    match row.kind {
        Kind::Head { origin } => ask(row.previous == origin, PoolCause::HasSnapshots),
        Kind::Snapshot { .. } => Ok(()),
    }
}

// Is there a group to come?
pub fn group_left(group: u32) -> Result<(), MemoryCause>
    ensures cases { MatchResult result (λ _. group < 65535) (λ c. (c ≡ GroupsSpent) × (group < 65535 → ⊥)) }
{
    ask(group < LAST_GROUP, MemoryCause::GroupsSpent)
}

// Is it a position of a tree of that height?
pub fn position(height: u32, position: u32) -> Result<(), PoolCause>
    ensures cases { height ≤ 4 → MatchResult result (λ _. position < fan ^ height) (λ c. (c ≡ OutOfRange) × (position < fan ^ height → ⊥)) }
{
    let inside = height <= MOST_HEIGHT && position < FAN.pow(height);
    ask(inside, PoolCause::OutOfRange)
}

// Is it below the number of buckets?
pub fn bucket(bucket: u32, count: u32) -> Result<(), PoolCause>
    ensures cases { MatchResult result (λ _. bucket < count) (λ c. (c ≡ OutOfRange) × (bucket < count → ⊥)) }
{
    ask(bucket < count, PoolCause::OutOfRange)
}

// Do so many bytes fit a block?
pub fn text(len: usize) -> Result<(), PoolCause>
    ensures cases { MatchResult result (λ _. len ≤ block_size) (λ c. (c ≡ OutOfRange) × (len ≤ block_size → ⊥)) }
{
    ask(len <= BLOCK_BYTES, PoolCause::OutOfRange)
}

// Are so many blocks free?
pub fn free_blocks<A: BlockAllocator>(allocator: &A, count: u32) -> Result<(), MemoryCause>
    ensures cases { A.sound allocator.now → MatchResult result (λ _. count ≤ free (A.meaning allocator.now)) (λ c. (c ≡ BlocksShort) × (count ≤ free (A.meaning allocator.now) → ⊥)) }
{
    ask(count <= allocator.free_count(), MemoryCause::BlocksShort)
}

// Are there places for so many more dead records?
pub fn dead_fits(dead: &Table<DeadRecord>, count: usize) -> Result<(), MemoryCause>
    ensures cases { MatchResult result (λ _. length (records dead.now) + count ≤ room dead.now) (λ c. (c ≡ DeadFull) × (length (records dead.now) + count ≤ room dead.now → ⊥)) }
{
    ask(count <= dead.spare(), MemoryCause::DeadFull)
}
