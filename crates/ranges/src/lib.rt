// An allocator that keeps the maximal ranges of its free blocks, in a table over ranges that the caller lends: no range
// is empty, no two are adjacent. A take is the first block of the longest range, the lowest among equals; a block that
// is given back joins the ranges on either side of it. A take looks at each range once; a give and the question whether
// a block is owned search by halving. A range that grows or shrinks keeps its place in the table, so that a call moves
// one run of ranges at most, those past a range that comes or goes.
//
// Proved of a map that only its own calls have changed: it does what an allocator's calls do, and stays such a map; a
// take answers the first block of the longest run of free blocks, the lowest among equals; a give always has a place for
// its range, since at most (size + 1) / 2 ranges stand apart; the number of free blocks is kept; a range that grows or
// shrinks stays between the same two; the lent ranges past the first (size + 1) / 2 are not touched. A new map owns
// nothing, whatever the ranges held, and writes the first of them alone; one that was refused has size 0 and writes none.
// Proved of any map, whatever its ranges hold: every call returns.
#![tactic(auto)]

ghost use Rattle.ranges.specs.Runs.{RangesAreRuns};

mod free;
mod range;
mod range_map;

pub use range_map::RangeMap;

// Ranges that stand apart are the maximal runs of the blocks that they leave free, and there are at most half as many
// as blocks, rounded up.
#[tactic(auto, using(crate::proofs::Runs::ranges_are_runs))]
pub fn ranges_are_runs()
    ensures { RangesAreRuns }
{}
