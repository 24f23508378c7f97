// Snapshots of heads, and heads cloned from snapshots. No block is read, taken or given back: the datasets share them.
ghost use Rattle.std.specs.Prelude.{◌≡◌, Some, Ok, OnErr};
ghost use Rattle.model.specs.Datasets.{Dataset};
ghost use Rattle.model.specs.Questions.{AllYes, questions};
ghost use Rattle.model.specs.Steps.{Snapped, Step, clone_row, snapshot_row, with_previous};
ghost use Rattle.model.specs.declared.Call.TheVariants.{Clone, Snapshot};
ghost use Rattle.pool.specs.Pools.{Intact, done, state_of};

use crate::{Pool, questions};
use blocks::BlockAllocator;
use faults::{Layer, PoolCause};
use model::Changed;
use records::rows::{Kind, Row};

// The row of a snapshot of a head: all that the head's row has but its kind.
fn snapshot_of(row: Row, snapshot: u32, group: u32) -> Row
    ensures value { result ≡ snapshot_row snapshot row group }
{
    Row {
        number: snapshot,
        kind: Kind::Snapshot { stamp: group },
        ..row
    }
}

// The row of a head that starts from a snapshot: it is its previous, and no block is young.
fn starts_from(row: Row, snapshot: u32) -> Row
    ensures value { result ≡ with_previous row (Some snapshot) 0 }
{
    Row {
        previous: Some(snapshot),
        born: 0,
        ..row
    }
}

// The row of a head that was cloned from a snapshot.
fn clone_of(row: Row, number: u32) -> Row
    ensures value { result ≡ clone_row number row }
{
    let origin = Some(row.number);
    Row {
        number,
        owner: number,
        kind: Kind::Head { origin },
        ..starts_from(row, row.number)
    }
}

impl<'m, A: BlockAllocator + Drop> Pool<'m, A> {
    // Takes snapshot `snapshot` of head `number`.
    pub fn snapshot(&mut self, number: u32, snapshot: u32) -> Result<Changed, Layer>
        ensures step { Intact A.sound A.meaning self.old → Step (state_of A.meaning self.old) (Snapshot number snapshot) (done result) (state_of A.meaning self.new) }
        ensures sound { Intact A.sound A.meaning self.old → Intact A.sound A.meaning self.new }
        ensures refused { Intact A.sound A.meaning self.old → OnErr result (self.new ≡ self.old) }
    {
        questions::dataset_number(number)?;
        questions::dataset_number(snapshot)?;
        let row = questions::existing(&self.rows, number)?;
        questions::head(row)?;
        questions::unused(&self.rows, snapshot)?;
        questions::free_row(&self.rows)?;
        questions::group_left(self.group)?;
        self.take_snapshot(row, snapshot)?;
        Ok(Changed::default())
    }

    // Makes head `number`, a clone of snapshot `snapshot`.
    pub fn clone_snapshot(&mut self, snapshot: u32, number: u32) -> Result<Changed, Layer>
        ensures step { Intact A.sound A.meaning self.old → Step (state_of A.meaning self.old) (Clone snapshot number) (done result) (state_of A.meaning self.new) }
        ensures sound { Intact A.sound A.meaning self.old → Intact A.sound A.meaning self.new }
        ensures refused { Intact A.sound A.meaning self.old → OnErr result (self.new ≡ self.old) }
    {
        questions::dataset_number(snapshot)?;
        questions::dataset_number(number)?;
        let row = questions::existing(&self.rows, snapshot)?;
        questions::snapshot(row)?;
        questions::unused(&self.rows, number)?;
        questions::free_row(&self.rows)?;
        self.add_row(clone_of(row, number))?;
        Ok(Changed::default())
    }

    // The snapshot takes over the tree and the dead list of the head, and is its previous; a new group begins.
    fn take_snapshot(&mut self, row: Row, snapshot: u32) -> Result<(), PoolCause>
        ensures snapped { Intact A.sound A.meaning self.old → Dataset (state_of A.meaning self.old) row.number row → AllYes (questions (state_of A.meaning self.old) (Snapshot row.number snapshot)) → (result ≡ Ok tt) × Snapped (state_of A.meaning self.old) (state_of A.meaning self.new) row.number snapshot row }
        ensures allocator { self.new.allocator ≡ self.old.allocator }
    {
        self.put_row(starts_from(row, snapshot))?;
        self.add_row(snapshot_of(row, snapshot, self.group))?;
        self.dead.join_list(row.number, snapshot);
        self.group = self.group.saturating_add(1);
        Ok(())
    }
}
