// Records that belong to lists. A table holds its lists one after another, each a run of it.
ghost use Rattle.std.specs.Prelude.{◌≡◌, ℕ, ◌+◌, ◌-◌, ◌≤◌, ◌↔◌, max, [], ◌++◌, length, take, drop, map, filter, if◌then◌else◌, nat_le, nat_lt};
ghost use Rattle.std.specs.List.{between};
ghost use Rattle.std.specs.List.Sorted.{IsPermutation, IsSortedByKey};
ghost use Rattle.ordered.specs.Lent.{KeptPast, Ordered, Unchanged, records, room};
ghost use Rattle.ordered.specs.Lists.{Apart, IsJoin, IsListing, Joined, Stands, list_of};
ghost use Rattle.ordered.specs.Order.{Holds};
ghost use Rattle.ordered.specs.Tables.{Ascending};

use crate::records::Record;
use crate::tables::Table;

// A kind of record that belongs to a list, named by a number.
pub trait Listed: Record {
    ghost listed: { Self → ℕ };

    ghost moved_to: { Self → ℕ → Self };

    // The list that it belongs to.
    fn list(&self) -> u32
        ensures { result ≡ listed self.now };

    // The record moved to that list.
    fn moved(self, list: u32) -> Self
        ensures { result ≡ moved_to self list };

    ghost listing: { IsListing Self.keyed Self.Key.Key.below listed moved_to };
}

impl<'m, R: Listed> Table<'m, R> {
    // The records of that list, in their order.
    pub fn list(&self, list: u32) -> &[R]
        ensures run { (i j : ℕ) × (result.now ≡ between i j (records self.now)) }
        ensures items { Ordered R.keyed R.Key.Key.below self.now → result.now ≡ list_of R.listed (records self.now) list }
    {
        let records = self.records();
        let (from, to) = run(records, list);
        &records[from..to]
    }

    // Moves every record of list `from` to list `to`. No record is lost or made; what stands then, and that it is in
    // order, is known where no record that moves gets the key of one that is there.
    pub fn join_list(&mut self, from: u32, to: u32)
        ensures ordered { Ordered R.keyed R.Key.Key.below self.old → Apart R.keyed R.Key.Key.below R.listed R.moved_to (records self.old) from to → Ordered R.keyed R.Key.Key.below self.new }
        ensures stands { Ordered R.keyed R.Key.Key.below self.old → Apart R.keyed R.Key.Key.below R.listed R.moved_to (records self.old) from to → (r : R) → Stands R.keyed R.Key.Key.below (records self.new) r ↔ Joined R.keyed R.Key.Key.below R.listed R.moved_to (records self.old) from to r }
        ensures same { from ≡ to → Unchanged self.old self.new }
        ensures none { Ordered R.keyed R.Key.Key.below self.old → list_of R.listed (records self.old) from ≡ [] → Unchanged self.old self.new }
        ensures len { length (records self.new) ≡ length (records self.old) }
        ensures past { KeptPast self.old self.new }
        ensures room { room self.new ≡ room self.old }
    {
        let count = self.len();
        join_first(self.places, count, from, to);
    }
}

// The same of the first `count` places.
fn join_first<R: Listed>(places: &mut [R], count: usize, from: u32, to: u32)
    requires { count ≤ length places.old }
    ensures first { IsJoin R.keyed R.Key.Key.below R.listed R.moved_to (take count places.old) (take count places.new) from to }
    ensures past { drop count places.new ≡ drop count places.old }
{
    join(&mut places[..count], from, to);
}

// The same of all records of a slice. Those that move are carried behind those of list `to`, and both sorted as one.
fn join<R: Listed>(records: &mut [R], from: u32, to: u32)
    ensures { IsJoin R.keyed R.Key.Key.below R.listed R.moved_to records.old records.new from to }
{
    let (first, end) = run(records, from);
    if from == to || first == end {
        return;
    }
    let (home, past) = run(records, to);
    move_all(&mut records[first..end], to);
    let at = carry(records, first, end, past);
    let low = at.saturating_sub(past - home);
    sort(&mut records[low..at + (end - first)]);
}

// Brings the records in the order of their keys.
fn sort<R: Record>(records: &mut [R])
    ensures permutation { IsPermutation records.old records.new }
    ensures len { length records.new ≡ length records.old }
    ensures sorted { IsSortedByKey R.keyed R.Key.Ord.cmp records.new }
{
    records.sort_unstable_by_key(|record| record.key());
}

// Moves each record to that list.
fn move_all<R: Listed>(records: &mut [R], list: u32)
    ensures { records.new ≡ map (λ x. R.moved_to x list) records.old }
{
    for record in records.iter_mut() {
        *record = record.moved(list);
    }
}

// Carries the records from `first` on and before `end` into the gap before index `at`, or, where that gap is among
// them, into the one behind them; the others close up, in their order. Answers where they begin then.
fn carry<R>(records: &mut [R], first: usize, end: usize, at: usize) -> usize
    requires { (first ≤ end) × (end ≤ length records.old) × (at ≤ length records.old) }
    ensures value { result ≡ (if nat_le at first then at else max at end - (end - first)) }
    ensures within { result + (end - first) ≤ length records.old }
    ensures items { let others = take first records.old ++ drop end records.old in records.new ≡ take result others ++ (between first end records.old ++ drop result others) }
{
    let many = end - first;
    if at <= first {
        records[at..end].rotate_right(many);
        return at;
    }
    let past = at.max(end);
    records[first..past].rotate_left(many);
    past - many
}

// Where the run of that list begins, and where it ends.
fn run<R: Listed>(records: &[R], list: u32) -> (usize, usize)
    ensures within { (result.0 ≤ result.1) × (result.1 ≤ length records.now) }
    ensures first { Ascending R.keyed (Holds R.Key.Key.below) records.now → result.0 ≡ length (filter (λ x. nat_lt (R.listed x) list) records.now) }
    ensures second { Ascending R.keyed (Holds R.Key.Key.below) records.now → result.1 ≡ length (filter (λ x. nat_le (R.listed x) list) records.now) }
{
    let from = records.partition_point(|record| record.list() < list);
    let to = records.partition_point(|record| record.list() <= list);
    (from, to.max(from))
}
