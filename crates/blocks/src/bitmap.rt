// A bitmap of owned blocks in bytes that the caller lends, one bit a block. Any bytes and any fields are accepted: a
// call on them ends and stays inside.
ghost use Rattle.std.specs.Prelude.{◌≡◌, ℕ, ◌<◌, false, MatchOption};
ghost use Rattle.blocks.specs.Bitmaps.{Makes, needed, mapped, Sound, Next, Spent, past, TakesNext, GivesBack};
ghost use Rattle.blocks.specs.Meanings.{Taking, Giving};

use crate::{BlockAllocator, NotOwned, bits, check_size};
use faults::MemoryCause;

// Takes the first free block at or after its cursor, and from 0 on past the end.
#[derive(Drop)]
pub struct Bitmap<'m> {
    bytes: &'m mut [u8],
    size: u32,
    cursor: u32,
    // how many blocks are free
    left: u32,
}

// How many bytes hold so many bits.
fn bytes_for(size: u32) -> usize
    ensures value { result ≡ needed size }
{
    (size as usize).div_ceil(8)
}

// The cursor after a block was taken.
fn after(n: u32, size: u32) -> u32
    requires { n < size }
    ensures value { result ≡ past n size }
{
    if n + 1 < size { n + 1 } else { 0 }
}

impl<'m> Bitmap<'m> {
    // A map that owns nothing, whatever the bytes held; where it is refused, of size 0. A pair, and no `Result` of a
    // map, since a refused one is an allocator too.
    #[tactic(auto, using(crate::proofs::Maps::new_empty, crate::proofs::Maps::new_counted))]
    pub fn new(bytes: &'m mut [u8], size: u32) -> (Bitmap<'m>, Result<(), MemoryCause>)
        ensures made { Makes size bytes.old result.0 result.1 }
        ensures start { result.0.cursor ≡ 0 }
        ensures empty { (k : ℕ) → (mapped result.0).owns k ≡ false }
        ensures sound { Sound result.0 }
    {
        let made = check_size(size, bytes_for(size), bytes.len());
        let size = made.map_or(0, |()| size);
        bits::clear(bytes, bytes_for(size));
        let map = Bitmap {
            bytes,
            size,
            cursor: 0,
            left: size,
        };
        (map, made)
    }

    // Whether block n is owned.
    fn has(&self, n: u32) -> bool
        ensures value { result ≡ (mapped self.now).owns n }
    {
        n < self.size && bits::is_set(self.bytes, n)
    }

    // The first free block at or after the cursor, and from 0 on past the end.
    fn next_free(&self) -> Option<u32>
        ensures value { MatchOption result (Spent self.now) (λ n. Next self.now n) }
    {
        let bytes = &*self.bytes;
        let before = self.cursor.min(self.size);
        let ahead = bits::first_clear(bytes, self.cursor, self.size);
        ahead.or_else(|| bits::first_clear(bytes, 0, before))
    }

    // Takes the next free block, and moves the cursor past it.
    fn take_next(&mut self) -> Result<u32, MemoryCause>
        ensures next { TakesNext self.old self.new result }
    {
        let n = self.next_free().ok_or(MemoryCause::BlocksShort)?;
        bits::flip(self.bytes, n);
        self.cursor = after(n, self.size);
        self.left = self.left.saturating_sub(1);
        Ok(n)
    }

    // Gives a block back, and leaves the cursor.
    fn give_back(&mut self, block: u32) -> Result<(), NotOwned>
        ensures back { GivesBack self.old block self.new result }
    {
        if !self.has(block) {
            return Err(NotOwned);
        }
        bits::flip(self.bytes, block);
        self.left = self.left.saturating_add(1);
        Ok(())
    }
}

impl BlockAllocator for Bitmap<'_> {
    ghost sound = { Sound };

    ghost meaning = { mapped };

    fn size(&self) -> u32 {
        self.size
    }

    fn free_count(&self) -> u32 {
        self.left
    }

    fn is_owned(&self, n: u32) -> bool {
        self.has(n)
    }

    #[tactic(auto, using(crate::proofs::Maps::takes, crate::proofs::Maps::take_sound))]
    fn take(&mut self) -> Result<u32, MemoryCause>
        ensures takes { Sound self.old → Taking (mapped self.old) (mapped self.new) result }
        ensures sound { Sound self.old → Sound self.new }
        ensures next { TakesNext self.old self.new result }
    {
        self.take_next()
    }

    #[tactic(auto, using(crate::proofs::Maps::gives, crate::proofs::Maps::give_sound))]
    fn give(&mut self, n: u32) -> Result<(), NotOwned>
        ensures gives { Sound self.old → Giving (mapped self.old) n (mapped self.new) result }
        ensures sound { Sound self.old → Sound self.new }
        ensures back { GivesBack self.old n self.new result }
    {
        self.give_back(n)
    }
}
