// Datasets destroyed.
ghost use Rattle.std.specs.Prelude.{◌≡◌, ℕ, ◌+◌, ◌-◌, ◌^◌, ◌<◌, ◌≤◌, not, filter, OnErr, MatchResult, Option, ◌==◌};
ghost use Rattle.records.specs.declared.dead.DeadRecord.{DeadRecord};
ghost use Rattle.records.specs.declared.rows.Kind.TheVariants.{Head, Snapshot};
ghost use Rattle.ordered.specs.Lent.{records, room};
ghost use Rattle.model.specs.Datasets.{Dataset};
ghost use Rattle.model.specs.Steps.{HeadDestroyed, SnapshotDestroyed, Step, given, with_previous};
ghost use Rattle.model.specs.declared.Call.TheVariants.{Destroy};
ghost use Rattle.reclaim.specs.Leaving.{DeadOrdered};
ghost use Rattle.pool.specs.Pools.{Intact, done, state_of};

use crate::{Pool, figures, questions};
use blocks::BlockAllocator;
use faults::{Layer, PoolCause};
use model::Changed;
use ordered::tables::Table;
use records::dead::DeadRecord;
use records::rows::{Kind, Row};

// The row of a snapshot's next once the snapshot is gone: its previous is the snapshot's, and it has the blocks that
// were young in the snapshot and were not given back.
fn follows(next: Row, row: Row, given: u32) -> Row
    ensures value { next.born + row.born < 2 ^ 32 → result ≡ with_previous next row.previous (next.born + row.born - given) }
{
    Row {
        previous: row.previous,
        born: next.born.saturating_add(row.born).saturating_sub(given),
        ..next
    }
}

// Takes the dead list of a dataset out.
#[tactic(auto, using(crate::proofs::Clearing::others_left))]
fn remove_list(dead: &mut Table<DeadRecord>, dataset: u32)
    ensures others { DeadOrdered dead.old → dataset ≤ 999 → records dead.new ≡ filter (λ (r : DeadRecord). not (r.dataset == dataset)) (records dead.old) }
    ensures ordered { DeadOrdered dead.old → DeadOrdered dead.new }
    ensures room { room dead.new ≡ room dead.old }
{
    let next = dataset.saturating_add(1);
    dead.remove_part(figures::list_start(dataset), figures::list_start(next));
}

impl<'m, A: BlockAllocator + Drop> Pool<'m, A> {
    // Destroys a head that has no snapshots of its own, or a snapshot that has no clones.
    pub fn destroy(&mut self, number: u32) -> Result<Changed, Layer>
        ensures step { Intact A.sound A.meaning self.old → Step (state_of A.meaning self.old) (Destroy number) (done result) (state_of A.meaning self.new) }
        ensures sound { Intact A.sound A.meaning self.old → Intact A.sound A.meaning self.new }
        ensures refused { Intact A.sound A.meaning self.old → OnErr result (self.new ≡ self.old) }
    {
        questions::dataset_number(number)?;
        let row = questions::existing(&self.rows, number)?;
        questions::no_clones(&self.rows, number)?;
        questions::no_snapshots(row)?;
        let given = match row.kind {
            Kind::Head { .. } => self.destroy_head(row)?,
            Kind::Snapshot { .. } => self.destroy_snapshot(row)?,
        };
        Ok(Changed { taken: 0, given })
    }

    // A head goes, with its dead list; the blocks that are young in it are given back.
    fn destroy_head(&mut self, row: Row) -> Result<u32, PoolCause>
        ensures destroyed { (o : Option ℕ) → Intact A.sound A.meaning self.old → Dataset (state_of A.meaning self.old) row.number row → row.kind ≡ Head o → MatchResult result (λ n. HeadDestroyed (state_of A.meaning self.old) (state_of A.meaning self.new) row.number × (n ≡ given (state_of A.meaning self.old) (state_of A.meaning self.new))) (λ _. ⊥) }
        ensures sound { A.sound self.old.allocator → A.sound self.new.allocator }
    {
        let stamp = self.stamp(row.previous);
        // As `&mut`: beside the loan of the allocator the check has no rule for a `&`.
        let memory = &mut *self.memory;
        let given = reclaim::give_tree(&mut self.allocator, memory, row.root, row.height, stamp)?;
        remove_list(&mut self.dead, row.number);
        self.rows.remove(row.number);
        Ok(given)
    }

    // A snapshot goes. Of its next's dead list the blocks born after the stamp of its previous are given back; the next
    // keeps the rest, and has the snapshot's dead list and previous.
    fn destroy_snapshot(&mut self, row: Row) -> Result<u32, PoolCause>
        ensures destroyed { (g : ℕ) → Intact A.sound A.meaning self.old → Dataset (state_of A.meaning self.old) row.number row → row.kind ≡ Snapshot g → MatchResult result (λ n. SnapshotDestroyed (state_of A.meaning self.old) (state_of A.meaning self.new) row.number row × (n ≡ given (state_of A.meaning self.old) (state_of A.meaning self.new))) (λ _. ⊥) }
        ensures sound { A.sound self.old.allocator → A.sound self.new.allocator }
    {
        let stamp = self.stamp(row.previous);
        let next = figures::next(&self.rows, row)?;
        let (first, end) = figures::young_ends(next.number, stamp);
        let (young, _) = self.dead.part(first, end);
        let given = reclaim::give_list(&mut self.allocator, young)?;
        self.dead.remove_part(first, end);
        self.dead.join_list(row.number, next.number);
        self.rows.remove(row.number);
        self.put_row(follows(next, row, given))?;
        Ok(given)
    }
}
