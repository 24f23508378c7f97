// The buckets of a dead list, each a part of the dead table.
ghost use Rattle.std.specs.Prelude.{◌≡◌, ℕ, ◌+◌, ◌-◌, ◌<◌, ◌≤◌, List, length, Some, None, IfSome, IfOk, MatchOption, slice_index};
ghost use Rattle.std.specs.List.{between};
ghost use Rattle.model.specs.Datasets.{Dataset, kind_stamp};
ghost use Rattle.model.specs.Families.{Ancestors};
ghost use Rattle.model.specs.Soundness.{Sound};
ghost use Rattle.model.specs.Steps.{Step};
ghost use Rattle.model.specs.declared.Call.TheVariants.{Bucket};
ghost use Rattle.ordered.specs.Lent.{records};
ghost use Rattle.pool.specs.Pools.{Intact, in_rows, part_told, state_of};

use crate::{Pool, figures, kind_stamp, questions};
use blocks::BlockAllocator;
use faults::{Layer, PoolCause};
use records::dead::DeadRecord;
use records::rows::Row;

impl<'m, A: BlockAllocator + Drop> Pool<'m, A> {
    // The records of a bucket of a dataset's dead list, and how many records of the dead table stand before its keys.
    pub fn bucket(&self, number: u32, bucket: u32) -> Result<(&[DeadRecord], usize), Layer>
        ensures step { Intact A.sound A.meaning self.now → Step (state_of A.meaning self.now) (Bucket number bucket) (part_told result) (state_of A.meaning self.now) }
        ensures part { IfOk result (λ p. p.0.now ≡ between p.1 (p.1 + length p.0.now) (records self.now.dead)) }
    {
        questions::dataset_number(number)?;
        let row = questions::existing(&self.rows, number)?;
        let count = self.ancestor_count(row);
        questions::bucket(bucket, count)?;
        let upper = self.ancestor(row, count - bucket).ok_or(PoolCause::NoPool)?;
        let first = figures::young_start(number, self.stamp(upper.previous));
        let end = figures::young_start(number, kind_stamp(self.group, upper.kind));
        Ok(self.dead.part(first, end))
    }

    // The previous of a dataset, if any; of a sound pool it is older.
    fn older(&self, row: Row) -> Option<Row>
        ensures falls { IfSome result (λ x. kind_stamp self.now.group x.kind < kind_stamp self.now.group row.kind) }
        ensures finds { Sound (state_of A.meaning self.now) → Dataset (state_of A.meaning self.now) row.number row → MatchOption result (row.previous ≡ None) (λ x. Dataset (state_of A.meaning self.now) x.number x × (row.previous ≡ Some x.number)) }
    {
        let previous = self.rows.get(row.previous?)?;
        let is_older = kind_stamp(self.group, previous.kind) < kind_stamp(self.group, row.kind);
        is_older.then_some(previous)
    }

    // How many snapshots are met from a dataset, going from previous to previous.
    fn ancestor_count(&self, row: Row) -> u32
        ensures counts { Sound (state_of A.meaning self.now) → Dataset (state_of A.meaning self.now) row.number row → (ms : List ℕ) × Ancestors (state_of A.meaning self.now) row.number ms × (result ≡ length ms) }
    {
        let mut count: u32 = 0;
        let mut at = row;
        while let Some(previous) = self.older(at) {
            count = count.saturating_add(1);
            at = previous;
        }
        count
    }

    // The snapshot that is met in so many steps.
    fn ancestor(&self, row: Row, steps: u32) -> Option<Row>
        ensures finds { (ms : List ℕ) → Sound (state_of A.meaning self.now) → Dataset (state_of A.meaning self.now) row.number row → Ancestors (state_of A.meaning self.now) row.number ms → 1 ≤ steps → steps ≤ length ms → result ≡ in_rows self.now.rows (slice_index ms (length ms - steps)) }
    {
        let mut at = row;
        for _ in 0..steps {
            at = self.older(at)?;
        }
        Some(at)
    }
}
