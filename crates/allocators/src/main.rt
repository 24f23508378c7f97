// What a bitmap and a range map of six blocks answer to the same takes and gives.
#![tactic(auto)]

use blocks::BlockAllocator;
use makes::{AnyAllocator, Make};
use records::ranges::FreeRange;
use std::io;

// What is done in one turn: a block is taken, or one is given back.
#[derive(Clone, Copy)]
enum Turn {
    Take,
    Give(u32),
}

const TURNS: [Turn; 12] = [
    Turn::Take,
    Turn::Take,
    Turn::Take,
    Turn::Give(0),
    Turn::Give(1),
    Turn::Give(1),
    Turn::Take,
    Turn::Take,
    Turn::Take,
    Turn::Take,
    Turn::Take,
    Turn::Take,
];

fn print_turn(rt: &impl Print, blocks: &mut AnyAllocator<'_>, turn: Turn) -> io::Result<()> {
    match turn {
        Turn::Take => match blocks.take() {
            Ok(block) => println!(rt; "  take: {block}"),
            Err(_) => println!(rt; "  take: refused"),
        },
        Turn::Give(block) => {
            let answer = blocks.give(block).map_or("refused", |()| "done");
            println!(rt; "  give {block}: {answer}")
        }
    }
}

fn print_all(rt: &impl Print, name: &str, make: Make) -> io::Result<()> {
    let mut bits = [0u8; 1];
    let mut ranges = [FreeRange::UNUSED; 3];
    let (mut blocks, made) = AnyAllocator::new(make, 6, &mut bits, &mut ranges);
    if made.is_err() {
        return println!(rt; "{name}: refused");
    }
    println!(rt; "{name}")?;
    for turn in TURNS {
        print_turn(rt, &mut blocks, turn)?;
    }
    let left = blocks.free_count();
    println!(rt; "  free: {left}")
}

fn main(rt: HostRuntime) -> io::Result<()> {
    print_all(&rt, "bitmap", Make::Bits)?;
    print_all(&rt, "range map", Make::Ranges)
}
