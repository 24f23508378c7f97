// The pool: datasets in memory that the caller lends, over any allocator. It holds block memory, the table of rows and
// the table of dead records.
// Proved, of a pool that is sound when the call comes: the call answers and leaves what the rules say, or is refused
// for the first question answered no and then changes nothing, not even in places that mean nothing or in what the
// allocator keeps beside its set; the pool is sound afterwards. Formatting gives a sound pool. On any other memory every
// call ends and stays inside what was lent.
#![tactic(auto)]

ghost use Rattle.std.specs.Prelude.{◌≡◌, ◌+◌, ◌-◌, ◌^◌, ◌<◌, ◌≤◌, true, not, length, is_some, IfOk, None, Ok, MatchResult, OnErr, nat_lt, slice_index_or};
ghost use Rattle.faults.specs.declared.Layer.TheVariants.{Pool as OfPool};
ghost use Rattle.model.specs.Datasets.{formatted, free, head_row, kind_stamp, stamp};
ghost use Rattle.model.specs.Questions.{AllYes, FirstNo, format_questions};
ghost use Rattle.model.specs.Steps.{Step, with_root, with_row};
ghost use Rattle.model.specs.declared.Call.TheVariants.{Create, Discard, Read, Write};
ghost use Rattle.ordered.specs.Lent.{records, room};
ghost use Rattle.ordered.specs.Tables.{replaced};
ghost use Rattle.records.specs.Keys.{number_of};
ghost use Rattle.faults.specs.declared.PoolCause.TheVariants.{NoPool};
ghost use Rattle.tree.specs.Paths.{Surveyed};
ghost use Rattle.tree.specs.Trees.{Lost, fan};
ghost use Rattle.pool.specs.Paths.{IsWritable, Planted, Replaces, Routed, head_questions};
ghost use Rattle.pool.specs.Pools.{HasPlace, Intact, RowsOrdered, bytes_read, done, in_rows, state_of};

use blocks::BlockAllocator;
use faults::{Layer, PoolCause};
use model::Changed;
use ordered::tables::Table;
use records::dead::DeadRecord;
use records::rows::{Kind, Pointer, Row};
use tree::{BLOCK_BYTES, FreshPath, Path, Route};

mod buckets;
mod destroys;
mod figures;
mod questions;
mod snapshots;

// The most rows that a pool keeps.
pub const MOST_ROWS: usize = 256;

// The most dead records that a pool keeps.
pub const MOST_DEAD: usize = 32_768;

// The last group number.
pub const LAST_GROUP: u32 = 65_535;

#[derive(Drop)]
pub struct Pool<'m, A> {
    memory: &'m mut [u8],
    rows: Table<'m, Row>,
    dead: Table<'m, DeadRecord>,
    group: u32,
    allocator: A,
}

// The row of a new head: a hole as root, no previous and no origin.
fn new_head(number: u32, height: u32) -> Row
    ensures value { result ≡ head_row number height }
{
    Row {
        number,
        height,
        root: None,
        previous: None,
        owner: number,
        kind: Kind::Head { origin: None },
        born: 0,
    }
}

// The stamp of a snapshot; of a head, which can still be written, the group number.
fn kind_stamp(group: u32, kind: Kind) -> u32
    ensures value { result ≡ kind_stamp group kind }
{
    match kind {
        Kind::Head { .. } => group,
        Kind::Snapshot { stamp } => stamp,
    }
}

// The row with a new root, and the blocks that were taken and given back counted.
fn rerooted(row: Row, root: Option<Pointer>, taken: u32, given: u32) -> Row
    ensures value { row.born + taken < 2 ^ 32 → result ≡ with_root row root (row.born + taken - given) }
{
    let born = row.born.saturating_add(taken).saturating_sub(given);
    Row { root, born, ..row }
}

// Whether a path ends in a hole.
fn ends_in_hole(route: &Route) -> bool
    requires { route.now.path.height ≤ 4 }
    ensures value { result ≡ not (is_some (slice_index_or route.now.old route.now.path.height None)) }
{
    route.old[route.path.height as usize].is_none()
}

impl<'m, A: BlockAllocator + Drop> Pool<'m, A> {
    // An empty pool over the lent memory, for an allocator that owns nothing.
    pub fn format(
        memory: &'m mut [u8],
        rows: &'m mut [Row],
        dead: &'m mut [DeadRecord],
        allocator: A,
    ) -> Result<Pool<'m, A>, Layer>
        ensures cases { A.sound allocator → MatchResult result (λ p. AllYes (format_questions memory.old (length rows.old) (length dead.old) (A.meaning allocator).size (A.meaning allocator).owns) × (state_of A.meaning p ≡ formatted memory.old (length rows.old) (length dead.old) (A.meaning allocator).size (A.meaning allocator).owns) × Intact A.sound A.meaning p) (λ l. FirstNo (format_questions memory.old (length rows.old) (length dead.old) (A.meaning allocator).size (A.meaning allocator).owns) l) }
        ensures keeps { IfOk result (λ p. p.allocator ≡ allocator) }
    {
        questions::shape(allocator.size(), memory.len(), rows.len(), dead.len())?;
        questions::owns_nothing(&allocator)?;
        Ok(Pool {
            memory,
            rows: Table::new(rows),
            dead: Table::new(dead),
            group: 1,
            allocator,
        })
    }

    // Makes head `number`, with a tree of that height and nothing in it.
    pub fn create(&mut self, number: u32, height: u32) -> Result<Changed, Layer>
        ensures step { Intact A.sound A.meaning self.old → Step (state_of A.meaning self.old) (Create number height) (done result) (state_of A.meaning self.new) }
        ensures sound { Intact A.sound A.meaning self.old → Intact A.sound A.meaning self.new }
        ensures refused { Intact A.sound A.meaning self.old → OnErr result (self.new ≡ self.old) }
    {
        questions::dataset_number(number)?;
        questions::unused(&self.rows, number)?;
        questions::height(height)?;
        questions::free_row(&self.rows)?;
        self.add_row(new_head(number, height))?;
        Ok(Changed::default())
    }

    // Stores the text at a position of a head, with zero bytes after it up to a whole block.
    pub fn write(&mut self, number: u32, position: u32, text: &[u8]) -> Result<Changed, Layer>
        ensures step { Intact A.sound A.meaning self.old → Step (state_of A.meaning self.old) (Write number position text.entry) (done result) (state_of A.meaning self.new) }
        ensures sound { Intact A.sound A.meaning self.old → Intact A.sound A.meaning self.new }
        ensures refused { Intact A.sound A.meaning self.old → OnErr result (self.new ≡ self.old) }
    {
        let row = self.writable(number)?;
        questions::position(row.height, position)?;
        questions::text(text.len())?;
        let route = self.survey(row, position)?;
        self.replace_path(row, &route, row.height + 1, text)
    }

    // Makes a position of a head a hole. The indirect blocks that then have holes only are dropped.
    pub fn discard(&mut self, number: u32, position: u32) -> Result<Changed, Layer>
        ensures step { Intact A.sound A.meaning self.old → Step (state_of A.meaning self.old) (Discard number position) (done result) (state_of A.meaning self.new) }
        ensures sound { Intact A.sound A.meaning self.old → Intact A.sound A.meaning self.new }
        ensures refused { Intact A.sound A.meaning self.old → OnErr result (self.new ≡ self.old) }
    {
        let row = self.writable(number)?;
        questions::position(row.height, position)?;
        let route = self.survey(row, position)?;
        if ends_in_hole(&route) {
            return Ok(Changed::default());
        }
        self.replace_path(row, &route, route.kept as u32, b"")
    }

    // The bytes of the block at a position, a part of block memory, or nothing at a hole.
    pub fn read(&self, number: u32, position: u32) -> Result<Option<&[u8; BLOCK_BYTES]>, Layer>
        ensures step { Intact A.sound A.meaning self.now → Step (state_of A.meaning self.now) (Read number position) (bytes_read result) (state_of A.meaning self.now) }
    {
        questions::dataset_number(number)?;
        let row = questions::existing(&self.rows, number)?;
        questions::position(row.height, position)?;
        let Some(pointer) = tree::descend(self.memory, row.root, row.height, position)? else {
            return Ok(None);
        };
        let part = tree::read_block(self.memory, pointer.block)?;
        Ok(Some(part))
    }

    // The row of a head that exists.
    pub(crate) fn writable(&self, number: u32) -> Result<Row, PoolCause>
        ensures cases { RowsOrdered self.now.rows → MatchResult result (λ row. IsWritable (state_of A.meaning self.now) number row) (λ c. FirstNo (head_questions (state_of A.meaning self.now) number) (OfPool c)) }
    {
        questions::dataset_number(number)?;
        let row = questions::existing(&self.rows, number)?;
        questions::head(row)?;
        Ok(row)
    }

    // The path of a dataset to a position.
    fn survey(&self, row: Row, position: u32) -> Result<Route, PoolCause>
        ensures surveyed { MatchResult result (λ w. (row.height ≤ 4) × (w.path ≡ record { height = row.height; position = position }) × Surveyed self.now.memory.now row.root row.height position w.old w.kept) (λ c. (c ≡ NoPool) × (row.height ≤ 4 → position < fan ^ row.height → Lost self.now.memory.now row.root row.height)) }
    {
        let path = Path {
            height: row.height,
            position,
        };
        tree::survey(self.memory, row.root, path)
    }

    // The stamp of a snapshot that may be there, 0 where it is not.
    pub(crate) fn stamp(&self, snapshot: Option<u32>) -> u32
        ensures value { RowsOrdered self.now.rows → result ≡ stamp (state_of A.meaning self.now) snapshot }
    {
        let Some(number) = snapshot else {
            return 0;
        };
        // A match: by `map_or` the search finds no proof.
        match self.rows.get(number) {
            Some(row) => kind_stamp(self.group, row.kind),
            None => 0,
        }
    }

    // Puts the row in its place. A pool that was asked first has one, so a refusal means that there is no pool.
    pub(crate) fn add_row(&mut self, row: Row) -> Result<(), PoolCause>
        ensures adds { RowsOrdered self.old.rows → HasPlace self.old.rows row → (result ≡ Ok tt) × (state_of A.meaning self.new ≡ with_row (state_of A.meaning self.old) row) }
        ensures allocator { self.new.allocator ≡ self.old.allocator }
    {
        self.rows.insert(row).map_err(|_| PoolCause::NoPool)
    }

    // Takes the blocks of a new path and writes it. Answers the new root.
    fn plant(
        &mut self,
        row: Row,
        route: &Route,
        count: u32,
        text: &[u8],
    ) -> Result<Option<Pointer>, Layer>
        ensures planted { Intact A.sound A.meaning self.old → Routed (state_of A.meaning self.old) row route.now.path.position route.now count text.now → count ≤ free (state_of A.meaning self.old) → MatchResult result (λ root. Planted (state_of A.meaning self.old) (A.meaning self.old.allocator) (A.meaning self.new.allocator) self.new.memory.now row route.now.path.position count text.now root) (λ _. ⊥) }
        ensures sound { A.sound self.old.allocator → A.sound self.new.allocator }
        ensures rows { self.new.rows ≡ self.old.rows }
        ensures dead { self.new.dead ≡ self.old.dead }
        ensures group { self.new.group ≡ self.old.group }
    {
        let path = reclaim::take_path(&mut self.allocator, count)?;
        let fresh = FreshPath {
            blocks: &path[..count as usize],
            group: self.group,
        };
        let root = tree::rewrite(self.memory, route, fresh, text)?;
        Ok(root)
    }

    // Puts the row in the place of the one with its number.
    pub(crate) fn put_row(&mut self, row: Row) -> Result<(), PoolCause>
        ensures rows { RowsOrdered self.old.rows → is_some (in_rows self.old.rows row.number) ≡ true → (result ≡ Ok tt) × (records self.new.rows ≡ replaced number_of nat_lt (records self.old.rows) row) }
        ensures room { room self.new.rows ≡ room self.old.rows }
        ensures memory { self.new.memory ≡ self.old.memory }
        ensures dead { self.new.dead ≡ self.old.dead }
        ensures group { self.new.group ≡ self.old.group }
        ensures allocator { self.new.allocator ≡ self.old.allocator }
    {
        if self.rows.replace(row) {
            Ok(())
        } else {
            Err(PoolCause::NoPool)
        }
    }

    // Replaces the path of a head to a position: its first `count` levels by fresh blocks, of which the one at the
    // height holds the text, and the levels below by holes. The old blocks leave.
    fn replace_path(
        &mut self,
        row: Row,
        route: &Route,
        count: u32,
        text: &[u8],
    ) -> Result<Changed, Layer>
        ensures replaces { Intact A.sound A.meaning self.old → Routed (state_of A.meaning self.old) row route.now.path.position route.now count text.now → Replaces (state_of A.meaning self.old) row route.now.path.position count text.now result (state_of A.meaning self.new) }
        ensures refused { Intact A.sound A.meaning self.old → Routed (state_of A.meaning self.old) row route.now.path.position route.now count text.now → OnErr result (self.new ≡ self.old) }
        ensures sound { A.sound self.old.allocator → A.sound self.new.allocator }
    {
        let stamp = self.stamp(row.previous);
        questions::free_blocks(&self.allocator, count)?;
        questions::dead_fits(&self.dead, reclaim::sinking_count(&route.old, stamp))?;
        let root = self.plant(row, route, count, text)?;
        let given = reclaim::leave_path(
            &mut self.allocator,
            &mut self.dead,
            row.number,
            stamp,
            &route.old,
        )?;
        self.put_row(rerooted(row, root, count, given))?;
        Ok(Changed {
            taken: count,
            given,
        })
    }
}
