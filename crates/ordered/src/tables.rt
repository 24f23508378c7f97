// A table of records in places that the caller lends. The first `count` places hold its records, in the order of their
// keys; what stands in the others means nothing. Every call returns, whatever the places hold and whatever the count is.
ghost use Rattle.std.specs.Prelude.{◌≡◌, ◌+◌, ◌-◌, ◌<◌, ◌≤◌, min, true, false, [], length, is_some, IfSome, MatchResult, OnErr, OnOk, if◌then◌else◌, Some, None, ◌++◌, take, drop, nat_le, slice_index_or, slice_set};
ghost use Rattle.std.specs.List.{between, insert, remove};
ghost use Rattle.std.specs.Result.{result_ok};
ghost use Rattle.ordered.specs.Lent.{KeptPast, Ordered, Unchanged, records, room};
ghost use Rattle.ordered.specs.Order.{Holds};
ghost use Rattle.ordered.specs.Tables.{Alone, Ascending, index_of, rank_of, record_of, part_of, without_part, with_record, without_key, replaced, fits_at, fits_over, either, answer, after};

use crate::keys::Key;
use crate::records::Record;
use std::cmp::Ordering;

// Why a record was not put in.
#[derive(Clone, Copy, Debug, PartialEq, Eq)]
pub enum InsertError {
    // A record with that key is there already.
    Present,
    // No place is left.
    Full,
}

// Where the record with that key stands among others in order, or where it belongs. A loop of its own: std's search goes
// on where it has met the key, so that a record in the middle would take as many looks as any other. `size` records from
// `base` on are still to be searched; that it falls by the same half either way spares a branch.
fn search<R: Record>(among: &[R], key: R::Key) -> Result<usize, usize>
    ensures within { MatchResult result (λ i. i < length among.now) (λ i. i ≤ length among.now) }
    ensures finds { Ascending R.keyed (Holds R.Key.Key.below) among.now → result_ok result ≡ index_of R.keyed R.Key.Key.below among.now key }
    ensures ranks { Ascending R.keyed (Holds R.Key.Key.below) among.now → either result ≡ rank_of R.keyed R.Key.Key.below among.now key }
{
    let mut base = 0;
    let mut size = among.len();
    while size > 1 {
        let half = size / 2;
        let middle = base + half;
        let order = among[middle].key().cmp(&key);
        if order.is_eq() {
            return Ok(middle);
        }
        base = if order.is_gt() { base } else { middle };
        size -= half;
    }
    if size == 0 {
        return Err(base);
    }
    let last = among[base].key();
    match last.cmp(&key) {
        Ordering::Less => Err(base + 1),
        Ordering::Equal => Ok(base),
        Ordering::Greater => Err(base),
    }
}

// A lent slice with a count beside it: a Vec would take the heap. That the records are in order is a premise of the
// clauses below and no invariant here: lent memory may have been altered, and every call must still end and stay inside.
#[derive(Drop)]
pub struct Table<'m, R> {
    pub(crate) places: &'m mut [R],
    count: usize,
}

impl<'m, R: Record> Table<'m, R> {
    // An empty table.
    pub fn new(places: &'m mut [R]) -> Self
        ensures ordered { Ordered R.keyed R.Key.Key.below result }
        ensures empty { records result ≡ [] }
        ensures same { result.places.now ≡ places.old }
    {
        Table { places, count: 0 }
    }

    // How many records there are.
    pub fn len(&self) -> usize
        ensures value { result ≡ length (records self.now) }
    {
        self.records().len()
    }

    // The records, in their order.
    pub fn records(&self) -> &[R]
        ensures value { result.now ≡ records self.now }
    {
        &self.places[..self.count.min(self.places.len())]
    }

    // How many records have keys below that key.
    pub fn rank(&self, key: R::Key) -> usize
        ensures bound { result ≤ length (records self.now) }
        ensures value { Ordered R.keyed R.Key.Key.below self.now → result ≡ rank_of R.keyed R.Key.Key.below (records self.now) key }
    {
        self.locate(key).unwrap_or_else(|at| at)
    }

    // The index of the record with that key.
    pub fn find(&self, key: R::Key) -> Option<usize>
        ensures within { IfSome result (λ i. i < length (records self.now)) }
        ensures finds { Ordered R.keyed R.Key.Key.below self.now → result ≡ index_of R.keyed R.Key.Key.below (records self.now) key }
    {
        self.locate(key).ok()
    }

    // The record with that key.
    pub fn get(&self, key: R::Key) -> Option<R>
        ensures finds { Ordered R.keyed R.Key.Key.below self.now → result ≡ record_of R.keyed R.Key.Key.below (records self.now) key }
    {
        let at = self.find(key)?;
        Some(self.at(at))
    }

    // The records with keys from `low` on and below `high`, in their order, and how many have keys below `low`. There
    // are none where `high` is not above `low`.
    pub fn part(&self, low: R::Key, high: R::Key) -> (&[R], usize)
        ensures run { result.0.now ≡ between result.1 (result.1 + length result.0.now) (records self.now) }
        ensures first { Ordered R.keyed R.Key.Key.below self.now → result.0.now ≡ part_of R.keyed R.Key.Key.below (records self.now) low high }
        ensures second { Ordered R.keyed R.Key.Key.below self.now → result.1 ≡ rank_of R.keyed R.Key.Key.below (records self.now) low }
        ensures backward { Ordered R.keyed R.Key.Key.below self.now → (Holds R.Key.Key.below low high → ⊥) → result.0.now ≡ [] }
    {
        let from = self.rank(low);
        let to = self.rank(high).max(from);
        (&self.records()[from..to], from)
    }

    // Puts the record at its place, unless one with its key is there or no place is left.
    pub fn insert(&mut self, added: R) -> Result<(), InsertError>
        ensures value { Ordered R.keyed R.Key.Key.below self.old → result ≡ answer R.keyed R.Key.Key.below (room self.old) (records self.old) added }
        ensures items { Ordered R.keyed R.Key.Key.below self.old → records self.new ≡ after R.keyed R.Key.Key.below (records self.old) added result }
        ensures alone { Ordered R.keyed R.Key.Key.below self.old → OnOk result (Alone R.keyed R.Key.Key.below (records self.old) (records self.new) (R.keyed added) (Some added)) }
        ensures ordered { Ordered R.keyed R.Key.Key.below self.old → Ordered R.keyed R.Key.Key.below self.new }
        ensures kept { OnErr result (Unchanged self.old self.new) }
        ensures past { KeptPast self.old self.new }
        ensures room { room self.new ≡ room self.old }
    {
        match self.locate(added.key()) {
            Ok(_) => Err(InsertError::Present),
            Err(_) if self.is_full() => Err(InsertError::Full),
            Err(at) => {
                self.put_in(at, added);
                Ok(())
            }
        }
    }

    // Takes the record with that key out.
    pub fn remove(&mut self, key: R::Key) -> Option<R>
        ensures value { Ordered R.keyed R.Key.Key.below self.old → result ≡ record_of R.keyed R.Key.Key.below (records self.old) key }
        ensures items { Ordered R.keyed R.Key.Key.below self.old → records self.new ≡ without_key R.keyed R.Key.Key.below (records self.old) key }
        ensures alone { Ordered R.keyed R.Key.Key.below self.old → Alone R.keyed R.Key.Key.below (records self.old) (records self.new) key None }
        ensures ordered { Ordered R.keyed R.Key.Key.below self.old → Ordered R.keyed R.Key.Key.below self.new }
        ensures kept { is_some result ≡ false → Unchanged self.old self.new }
        ensures past { KeptPast self.old self.new }
        ensures room { room self.new ≡ room self.old }
    {
        let at = self.find(key)?;
        Some(self.take_out(at))
    }

    // Takes out the records with keys from `low` on and below `high`: the ones that `part` answers.
    pub fn remove_part(&mut self, low: R::Key, high: R::Key)
        ensures items { Ordered R.keyed R.Key.Key.below self.old → records self.new ≡ without_part R.keyed R.Key.Key.below (records self.old) low high }
        ensures ordered { Ordered R.keyed R.Key.Key.below self.old → Ordered R.keyed R.Key.Key.below self.new }
        ensures past { KeptPast self.old self.new }
        ensures room { room self.new ≡ room self.old }
    {
        let from = self.rank(low);
        let to = self.rank(high).max(from);
        self.take_run_out(from, to);
    }

    // Puts the record in the place of the one with its key; false where there is none.
    pub fn replace(&mut self, new: R) -> bool
        ensures value { Ordered R.keyed R.Key.Key.below self.old → result ≡ is_some (index_of R.keyed R.Key.Key.below (records self.old) (R.keyed new)) }
        ensures items { Ordered R.keyed R.Key.Key.below self.old → records self.new ≡ replaced R.keyed R.Key.Key.below (records self.old) new }
        ensures alone { Ordered R.keyed R.Key.Key.below self.old → Alone R.keyed R.Key.Key.below (records self.old) (records self.new) (R.keyed new) (if result then Some new else None) }
        ensures ordered { Ordered R.keyed R.Key.Key.below self.old → Ordered R.keyed R.Key.Key.below self.new }
        ensures kept { result ≡ false → Unchanged self.old self.new }
        ensures past { KeptPast self.old self.new }
        ensures room { room self.new ≡ room self.old }
    {
        let Some(at) = self.find(new.key()) else {
            return false;
        };
        self.put_over(at, new);
        true
    }

    // Puts the record in the place of the one with that key, where its own key stands between those of the neighbours;
    // false where it does not, or no record has that key.
    pub fn rekey(&mut self, key: R::Key, new: R) -> bool
        ensures value { Ordered R.keyed R.Key.Key.below self.old → (d : R) → result ≡ fits_over R.keyed R.Key.Key.below (records self.old) d (R.keyed new) (index_of R.keyed R.Key.Key.below (records self.old) key) }
        ensures there { Ordered R.keyed R.Key.Key.below self.old → result ≡ true → is_some (index_of R.keyed R.Key.Key.below (records self.old) key) ≡ true }
        ensures items { Ordered R.keyed R.Key.Key.below self.old → records self.new ≡ (if result then with_record R.keyed R.Key.Key.below (without_key R.keyed R.Key.Key.below (records self.old) key) new else records self.old) }
        ensures ordered { Ordered R.keyed R.Key.Key.below self.old → Ordered R.keyed R.Key.Key.below self.new }
        ensures kept { result ≡ false → Unchanged self.old self.new }
        ensures past { KeptPast self.old self.new }
        ensures room { room self.new ≡ room self.old }
    {
        match self.find(key) {
            Some(at) if self.stands_between(at, new.key()) => {
                self.put_over(at, new);
                true
            }
            _ => false,
        }
    }

    // Where the record with that key stands, or where it belongs.
    fn locate(&self, key: R::Key) -> Result<usize, usize>
        ensures within { MatchResult result (λ i. i < length (records self.now)) (λ i. i ≤ length (records self.now)) }
        ensures finds { Ordered R.keyed R.Key.Key.below self.now → result_ok result ≡ index_of R.keyed R.Key.Key.below (records self.now) key }
        ensures ranks { Ordered R.keyed R.Key.Key.below self.now → either result ≡ rank_of R.keyed R.Key.Key.below (records self.now) key }
    {
        search(self.records(), key)
    }

    // Whether no place is left.
    pub fn is_full(&self) -> bool
        ensures value { result ≡ nat_le (room self.now) (length (records self.now)) }
    {
        self.len() >= self.places.len()
    }

    // How many places are left.
    pub fn spare(&self) -> usize
        ensures value { result ≡ room self.now - length (records self.now) }
    {
        self.places.len().saturating_sub(self.len())
    }

    // The record at that index.
    fn at(&self, at: usize) -> R
        requires { at < length (records self.now) }
        ensures value { (d : R) → result ≡ slice_index_or (records self.now) at d }
    {
        self.records()[at]
    }

    // Whether that key is above the one before that index and below the one after it.
    fn stands_between(&self, at: usize, key: R::Key) -> bool
        requires { at < length (records self.now) }
        ensures value { (d : R) → result ≡ fits_at R.keyed R.Key.Key.below (records self.now) d key at }
    {
        (at == 0 || self.at(at - 1).key() < key)
            && (at + 1 >= self.len() || key < self.at(at + 1).key())
    }

    // Puts a record in at that index.
    fn put_in(&mut self, at: usize, added: R)
        requires within { at ≤ length (records self.old) }
        requires room { length (records self.old) < room self.old }
        ensures items { records self.new ≡ insert (records self.old) at added }
        ensures past { KeptPast self.old self.new }
        ensures room { room self.new ≡ room self.old }
    {
        let count = self.count;
        self.places.copy_within(at..count, at + 1);
        self.places[at] = added;
        self.count = count + 1;
    }

    // Takes the record at that index out.
    fn take_out(&mut self, at: usize) -> R
        requires { at < length (records self.old) }
        ensures value { (d : R) → result ≡ slice_index_or (records self.old) at d }
        ensures items { records self.new ≡ remove (records self.old) at }
        ensures past { KeptPast self.old self.new }
        ensures room { room self.new ≡ room self.old }
    {
        let taken = self.at(at);
        self.take_run_out(at, at + 1);
        taken
    }

    // Takes out the records from one index on and below another.
    fn take_run_out(&mut self, from: usize, to: usize)
        requires { (from ≤ to) × (to ≤ length (records self.old)) }
        ensures items { records self.new ≡ take from (records self.old) ++ drop to (records self.old) }
        ensures past { KeptPast self.old self.new }
        ensures room { room self.new ≡ room self.old }
    {
        let count = self.len();
        self.places.copy_within(to..count, from);
        self.count = count - (to - from);
    }

    // Puts a record in the place of the one at that index.
    fn put_over(&mut self, at: usize, new: R)
        requires { at < length (records self.old) }
        ensures items { records self.new ≡ slice_set (records self.old) at new }
        ensures past { KeptPast self.old self.new }
        ensures room { room self.new ≡ room self.old }
    {
        self.places[at] = new;
    }
}
