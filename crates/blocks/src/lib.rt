// Block allocators. An allocator means a size and a set of owned blocks, each below the size. It takes a free block,
// gives an owned one back, and refuses to take just where it owns as many blocks as its size. Here are the trait that
// says so, the sizes that an allocator can have, how blocks are counted, and the bitmap, which keeps one bit a block in
// bytes that the caller lends.
//
// Proved once, of all sets: how a count goes with its set. Of every allocator: a take raises the number of owned blocks
// by one, and its block is below the size; a give lowers that number by one. Of the bitmap: it is such an allocator; a
// new one owns nothing, whatever its bytes held, and bytes that it does not need stay as they were; a take answers the
// first free block from its cursor on, going round, and moves the cursor past it; a call changes one bit, or nothing
// where it refuses. Whatever the bytes and the fields hold, every call returns.
#![tactic(auto)]

ghost use Rattle.std.specs.Prelude.{◌≡◌};
ghost use Rattle.blocks.specs.Meanings.{Meaning, free, Taking, Giving, Calling};
ghost use Rattle.blocks.specs.Sets.{Counting};

use faults::MemoryCause;

mod bitmap;
mod bits;
mod sizes;

pub use bitmap::Bitmap;
pub use sizes::{MOST_BLOCKS, check_size};

// A block that is not owned can't be given back.
#[derive(Clone, Copy, Debug, PartialEq, Eq)]
pub struct NotOwned;

pub trait BlockAllocator {
    // What holds of an allocator that only its own calls have changed.
    ghost sound: { Self → Type 0 };

    // Its size and its set of owned blocks.
    ghost meaning: { Self → Meaning };

    fn size(&self) -> u32
        ensures value { sound self.now → result ≡ (meaning self.now).size };

    fn free_count(&self) -> u32
        ensures value { sound self.now → result ≡ free (meaning self.now) };

    fn is_owned(&self, n: u32) -> bool
        ensures value { sound self.now → result ≡ (meaning self.now).owns n };

    fn take(&mut self) -> Result<u32, MemoryCause>
        ensures takes { sound self.old → Taking (meaning self.old) (meaning self.new) result }
        ensures sound { sound self.old → sound self.new };

    fn give(&mut self, n: u32) -> Result<(), NotOwned>
        ensures gives { sound self.old → Giving (meaning self.old) n (meaning self.new) result }
        ensures sound { sound self.old → sound self.new };
}

// The laws of counting, of all sets.
#[tactic(auto, using(crate::proofs::Counts::counting))]
pub fn counting_laws_hold()
    ensures { Counting }
{}

// The laws of taking and giving, of all meanings.
#[tactic(auto, using(crate::proofs::Changes::calling))]
pub fn calling_laws_hold()
    ensures { Calling }
{}
