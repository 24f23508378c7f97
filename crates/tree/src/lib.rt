// Block trees in lent memory. The memory is a row of blocks of 64 bytes, numbered from 0. An indirect block holds eight
// pointers, each a block number and the group that it was born in; eight zero bytes are a hole. A tree of height h has
// its data h levels below its root, and a hole stands for all that is missing below it. A tree is never changed in
// place: a new path of fresh blocks replaces the path to a position, and the rest is shared.
//
// Proved once, of all trees: a tree whose blocks are unchanged is unchanged; replacing a path changes the tree at the
// places of that path, and nowhere else. Of the calls: a read is the block's own bytes, or its eight pointers, and a
// pointer is found at its place; a survey has the old pointers of a path, and how many of its levels still lead to
// another pointer once its position is a hole; a rewrite by such a route, with blocks that the tree does not reach,
// leaves byte for byte copies of the old indirect blocks with the new pointers of the path, the text filled with zero
// bytes, and every other block as it was. Such calls refuse only where a block that the tree reaches, or a new one,
// lies outside the memory, or an argument is out of range; and no rewrite, refused or not, changes a block that is not
// one of the new ones. Whatever the memory and the arguments hold, every call returns and stays inside.
#![tactic(auto)]

ghost use Rattle.tree.specs.Laws.{Frame, Reroute};

mod memory;
mod paths;

pub use memory::{BLOCK_BYTES, FAN, POINTER_BYTES, children, read_block};
pub use paths::{FreshPath, LEVELS, MOST_HEIGHT, Path, Route, descend, rewrite, survey};

// A tree whose blocks are unchanged is unchanged; replacing a path changes the tree on that path alone.
pub fn tree_laws_hold()
    ensures frame { Frame }
    ensures reroute { Reroute }
{}
