// The steps of a take and a give on the table of free ranges. That the ranges are maximal is a premise of each clause,
// since lent memory may hold anything. They are functions, as `Table` is another crate's: a type around it would put one
// more field into every clause.
ghost use Rattle.std.specs.Prelude.{◌≡◌, ℕ, ◌+◌, ◌<◌, true, length, Some, MatchOption};
ghost use Rattle.ordered.specs.Lent.{records};
ghost use Rattle.ranges.specs.Ranges.{held, range_at, last_before, Longest};
ghost use Rattle.ranges.specs.Steps.{Regular, CutAfter, Took, PutsBack};

use crate::range::{is_longer, join, length_of, rest};
use ordered::tables::Table;
use records::ranges::{FirstBlock, FreeRange};

// The longest range, the lowest among equals.
pub(crate) fn longest(ranges: &[FreeRange]) -> Option<FreeRange>
    ensures value { MatchOption result (length ranges.now ≡ 0) (λ x. Longest ranges.now x) }
{
    // By reference: that takes half the time of going over copies.
    ranges
        .iter()
        .reduce(|best, range| if is_longer(*range, *best) {
            range
        } else {
            best
        })
        .copied()
}

// The last range that begins at or before block n.
#[tactic(auto, using(crate::proofs::Lasts::up_to_none, crate::proofs::Lasts::up_to_some, crate::proofs::Steps::in_order))]
pub(crate) fn last_up_to(ranges: &Table<FreeRange>, n: u32) -> Option<FreeRange>
    ensures value { (m : ℕ) → Regular m ranges.now → result ≡ last_before (records ranges.now) (n + 1) }
{
    let next = n.saturating_add(1);
    let at = ranges.rank(FirstBlock(next)).checked_sub(1)?;
    Some(ranges.records()[at])
}

// Takes the first block off a range of the table. What is left of it stays between the same two ranges, so that the table
// never refuses it and no other is moved.
pub(crate) fn take_first(ranges: &mut Table<FreeRange>, range: FreeRange)
    ensures after { (m : ℕ) → Regular m ranges.old → range_at (records ranges.old) range.first ≡ Some range → Took m ranges.old range.first ranges.new }
{
    if range.length > 1 {
        let _ = ranges.rekey(FirstBlock(range.first), rest(range));
    } else {
        let _ = ranges.remove(FirstBlock(range.first));
    }
}

// Takes out the range that begins right after block n, which is owned: its length, or 0 where there is none.
fn cut_after(ranges: &mut Table<FreeRange>, n: u32) -> u32
    ensures after { (m : ℕ) → Regular m ranges.old → held m (records ranges.old) n ≡ true → CutAfter m ranges.old n ranges.new result }
{
    length_of(ranges.remove(FirstBlock(n.saturating_add(1))))
}

// Puts block n, which is owned, back among the free ones, where no range ends right before it. A range that begins right
// after it takes it in and stays between the same two; else the block is a range of its own, for which there is always a
// place.
fn put_first(ranges: &mut Table<FreeRange>, n: u32)
    ensures after { PutsBack ranges.old n 0 ranges.new }
{
    let next = FirstBlock(n.saturating_add(1));
    match ranges.get(next) {
        Some(right) => {
            let _ = ranges.rekey(next, join(0, n, right.length));
        }
        None => {
            let _ = ranges.insert(join(0, n, 0));
        }
    }
}

// Puts block n, which is owned, back among the free ones. `left` is the length of the range that ends right before it,
// which then grows in its place, or 0 where none does.
pub(crate) fn put_back(ranges: &mut Table<FreeRange>, left: u32, n: u32)
    ensures after { PutsBack ranges.old n left ranges.new }
{
    if left == 0 {
        put_first(ranges, n);
    } else {
        let right = cut_after(ranges, n);
        let _ = ranges.replace(join(left, n, right));
    }
}
