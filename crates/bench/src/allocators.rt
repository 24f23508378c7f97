// Calls on an allocator. `held` are the blocks that it handed out.
ghost use Rattle.std.specs.Prelude.{◌<◌};

use crate::tally::{Lots, Tally};
use blocks::BlockAllocator;
use faults::{Layer, PoolCause};
use model::Changed;

fn take<A: BlockAllocator>(allocator: &mut A, tally: &mut Tally) -> u32 {
    let answer = allocator.take();
    let changed = answer.map(|_| Changed { taken: 1, given: 0 });
    tally.change(changed.map_err(Layer::from));
    answer.unwrap_or(0)
}

fn give<A: BlockAllocator>(allocator: &mut A, block: u32, tally: &mut Tally) {
    let changed = allocator
        .give(block)
        .map(|()| Changed { taken: 0, given: 1 });
    tally.change(changed.map_err(|_| Layer::from(PoolCause::NoPool)));
}

// Takes as many blocks as are to be held.
pub fn fill<A: BlockAllocator>(allocator: &mut A, held: &mut [u32], tally: &mut Tally) {
    for block in held.iter_mut() {
        *block = take(allocator, tally);
    }
}

// Gives back every second block, so that no two free ones touch.
pub fn thin<A: BlockAllocator>(allocator: &mut A, held: &[u32], tally: &mut Tally) {
    for block in held.iter().step_by(2) {
        give(allocator, *block, tally);
    }
}

// Gives one of the other blocks back and takes one for it, time and again.
pub fn swap<A: BlockAllocator>(
    allocator: &mut A,
    held: &mut [u32],
    pairs: u32,
    lots: &mut Lots,
    tally: &mut Tally,
)
    requires { 0 < pairs }
{
    for _ in 0..10_000 {
        let place = 2 * lots.below(pairs) as usize + 1;
        if let Some(block) = held.get_mut(place) {
            give(allocator, *block, tally);
            *block = take(allocator, tally);
        }
    }
}

pub fn add_up(held: &[u32], tally: &mut Tally) {
    for block in held {
        tally.figure(*block);
    }
}
