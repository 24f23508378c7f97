// The figures of datasets, told from the rows and the dead table alone.
ghost use Rattle.std.specs.Prelude.{◌≡◌, ℕ, ◌+◌, ◌-◌, ◌^◌, min, filter, Some, MatchResult, ◌==◌};
ghost use Rattle.std.specs.List.{sum_by};
ghost use Rattle.faults.specs.declared.PoolCause.TheVariants.{NoPool};
ghost use Rattle.records.specs.declared.rows.Row.{Row};
ghost use Rattle.records.specs.declared.rows.Kind.TheVariants.{Snapshot};
ghost use Rattle.model.specs.Datasets.{Dataset};
ghost use Rattle.model.specs.Families.{IsClone};
ghost use Rattle.model.specs.Figures.{UniqueIs};
ghost use Rattle.model.specs.Steps.{Step};
ghost use Rattle.model.specs.declared.Call.TheVariants.{Unique, Used};
ghost use Rattle.pool.specs.Pools.{Intact, RowsOrdered, counted, in_rows, state_of};

use crate::{Pool, questions};
use blocks::BlockAllocator;
use faults::{Layer, PoolCause};
use ordered::tables::Table;
use records::dead::DeadRecord;
use records::rows::{Kind, Row};

// How many blocks are young in the rows of a file system.
fn used_by(rows: &[Row], head: u32) -> u32
    ensures value { result ≡ min (sum_by (λ (r : Row). r.born) (filter (λ (r : Row). r.owner == head) rows.now)) (2 ^ 32 - 1) }
{
    let mut used: u32 = 0;
    for row in rows {
        if row.owner == head {
            used = used.saturating_add(row.born);
        }
    }
    used
}

// The dataset of a snapshot's file system whose previous it is.
pub fn next(rows: &Table<Row>, row: Row) -> Result<Row, PoolCause>
    ensures cases { RowsOrdered rows.now → MatchResult result (λ x. (in_rows rows.now x.number ≡ Some x) × (x.previous ≡ Some row.number) × (x.owner ≡ row.owner)) (λ c. (c ≡ NoPool) × ((m : ℕ) (x : Row) → in_rows rows.now m ≡ Some x → x.previous ≡ Some row.number → x.owner ≡ row.owner → ⊥)) }
{
    rows.records()
        .iter()
        .find(|other| other.previous == Some(row.number) && other.owner == row.owner)
        .copied()
        .ok_or(PoolCause::NoPool)
}

// Where the dead list of a dataset begins.
pub fn list_start(dataset: u32) -> DeadRecord
    ensures value { result ≡ record { dataset = dataset; birth = 0; block = 0 } }
{
    DeadRecord {
        dataset,
        birth: 0,
        block: 0,
    }
}

// Where in it the blocks begin that were born after the stamp.
pub fn young_start(dataset: u32, stamp: u32) -> DeadRecord
    ensures value { result ≡ record { dataset = dataset; birth = min (stamp + 1) (2 ^ 32 - 1); block = 0 } }
{
    DeadRecord {
        birth: stamp.saturating_add(1),
        ..list_start(dataset)
    }
}

// Where those begin, and where the list ends.
pub fn young_ends(dataset: u32, stamp: u32) -> (DeadRecord, DeadRecord)
    ensures first { result.0 ≡ record { dataset = dataset; birth = min (stamp + 1) (2 ^ 32 - 1); block = 0 } }
    ensures second { result.1 ≡ record { dataset = min (dataset + 1) (2 ^ 32 - 1); birth = 0; block = 0 } }
{
    let end = list_start(dataset.saturating_add(1));
    (young_start(dataset, stamp), end)
}

impl<'m, A: BlockAllocator + Drop> Pool<'m, A> {
    // How many blocks a dataset reaches and no other does. It is a head, or a snapshot without clones.
    pub fn unique(&self, number: u32) -> Result<u32, Layer>
        ensures step { Intact A.sound A.meaning self.now → Step (state_of A.meaning self.now) (Unique number) (counted result) (state_of A.meaning self.now) }
    {
        questions::dataset_number(number)?;
        let row = questions::existing(&self.rows, number)?;
        questions::no_clones(&self.rows, number)?;
        match row.kind {
            Kind::Head { .. } => Ok(row.born),
            Kind::Snapshot { .. } => Ok(self.young_dead(row)?),
        }
    }

    // How many blocks the file system of a head reaches that were born after the stamp of its origin.
    pub fn used(&self, number: u32) -> Result<u32, Layer>
        ensures step { Intact A.sound A.meaning self.now → Step (state_of A.meaning self.now) (Used number) (counted result) (state_of A.meaning self.now) }
    {
        self.writable(number)?;
        Ok(used_by(self.rows.records(), number))
    }

    // How many blocks of the dead list of a snapshot's next were born after the stamp of the snapshot's previous.
    fn young_dead(&self, row: Row) -> Result<u32, PoolCause>
        ensures counts { (n g : ℕ) → Intact A.sound A.meaning self.now → Dataset (state_of A.meaning self.now) n row → row.kind ≡ Snapshot g → ((m : ℕ) → IsClone (state_of A.meaning self.now) n m → ⊥) → MatchResult result (λ k. UniqueIs (state_of A.meaning self.now) n k) (λ _. ⊥) }
    {
        let next = next(&self.rows, row)?;
        let (first, end) = young_ends(next.number, self.stamp(row.previous));
        let (young, _) = self.dead.part(first, end);
        // No table of a pool is so long that the count does not fit.
        u32::try_from(young.len()).map_err(|_| PoolCause::NoPool)
    }
}
