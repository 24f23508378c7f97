// The blocks that a call takes and gives: those of a new path are taken from the allocator, and those of the old path
// leave the dataset, given back where they are younger than its previous, and else in its dead list. Where a dataset is
// destroyed, the young blocks of its tree, or of a dead list, are given back.
//
// Proved over every allocator that only its own calls have changed. A new path has as many blocks as were asked for,
// each free before and no two the same, and no other block is taken; or none is, since fewer are free, or since no path
// has so many. Where the pointers of an old path can leave (no two lead to one block, the young blocks are owned, the
// records of the others are new and have places), they all do: the young blocks are given back, and no others, their
// number is answered, and the dead table has a record of each of the others. How many records those are is known
// before. The blocks of a list of dead records are given back, and no others, where they are owned and no two are one.
// Of a tree the blocks born after a stamp are given back, and no others, where they are owned, all that it reaches lies
// in the memory, births fall going down, and no block stands at two places. The number that is answered is by how many
// fewer are owned. Whatever the allocator, the table, the memory and the pointers hold, every call returns, and a dead
// table in order stays in order.
#![tactic(auto)]

mod give;
mod leave;
mod take;
mod trees;

pub use give::give_list;
pub use leave::{leave_path, sinking_count};
pub use take::take_path;
pub use trees::give_tree;
