// Histories of small pools, over memory of the program's own and over each allocator: each call, and what it answered.
// The counts and the refusals that it prints come from the calls alone.
#![tactic(auto)]

ghost use Rattle.std.specs.Prelude.{◌≡◌, ℕ, ◌<◌, length, take, ◌≢◌, slice_index};

use blocks::{Bitmap, BlockAllocator};
use faults::{Layer, MemoryCause};
use model::Changed;
use pool::Pool;
use ranges::RangeMap;
use records::dead::DeadRecord;
use records::ranges::FreeRange;
use records::rows::Row;
use std::io;
use std::io::Write;
use tree::BLOCK_BYTES;

mod turns;

use turns::{HISTORIES, History, Turn};

// What a bitmap and a range map of up to eight blocks need.
const BITMAP_BYTES: usize = 1;

const FREE_RANGES: usize = 4;

fn print_refusal(rt: &impl Print, layer: Layer) -> io::Result<()> {
    let number = layer.number();
    let letter = char::from(layer.letter());
    println!(rt; "refused, {number} {letter}")
}

fn print_change(rt: &impl Print, changed: Result<Changed, Layer>) -> io::Result<()> {
    match changed {
        Ok(Changed { taken, given }) => println!(rt; "{taken} taken, {given} given"),
        Err(layer) => print_refusal(rt, layer),
    }
}

// The bytes before the first zero byte, or all where there is none.
fn before_zero(bytes: &[u8]) -> &[u8]
    ensures front { result.now ≡ take (length result.now) bytes.now }
    ensures clear { (k : ℕ) → k < length result.now → slice_index bytes.now k ≢ 0 }
    ensures ends { length result.now < length bytes.now → slice_index bytes.now (length result.now) ≡ 0 }
{
    let end = bytes
        .iter()
        .position(|byte| *byte == 0)
        .unwrap_or(bytes.len());
    &bytes[..end]
}

fn print_read(rt: &impl Print, read: Result<Option<&[u8; BLOCK_BYTES]>, Layer>) -> io::Result<()> {
    match read {
        Ok(Some(block)) => {
            io::writer(rt).write_all(before_zero(block))?;
            println!(rt; "")
        }
        Ok(None) => println!(rt; "hole"),
        Err(layer) => print_refusal(rt, layer),
    }
}

// Makes the call, and prints it and its answer.
fn print_turn<A: BlockAllocator + Drop>(
    rt: &impl Print,
    pool: &mut Pool<'_, A>,
    turn: Turn,
) -> io::Result<()> {
    match turn {
        Turn::Create(number, height) => {
            print!(rt; "    create {number} {height}: ")?;
            print_change(rt, pool.create(number, height))
        }
        Turn::Write(number, position, text) => {
            print!(rt; "    write {number} {position} {text}: ")?;
            print_change(rt, pool.write(number, position, text.as_bytes()))
        }
        Turn::Discard(number, position) => {
            print!(rt; "    discard {number} {position}: ")?;
            print_change(rt, pool.discard(number, position))
        }
        Turn::Read(number, position) => {
            print!(rt; "    read {number} {position}: ")?;
            print_read(rt, pool.read(number, position))
        }
    }
}

// Prints a formatting for the allocator, and the turns of the history where it is granted.
fn print_history<A: BlockAllocator + Drop>(
    rt: &(impl Print + AllocGlobal),
    allocator: A,
    history: &History,
) -> io::Result<()> {
    let mut memory = vec![in rt.alloc(); 0u8; history.bytes]?;
    let mut rows = [Row::UNUSED; 1];
    let mut dead = [DeadRecord::UNUSED; 1];
    let bytes = memory.len();
    let size = allocator.size();
    let owned = size.saturating_sub(allocator.free_count());
    print!(rt; "    format {bytes} bytes, {size} blocks, {owned} owned: ")?;
    match Pool::format(&mut memory, &mut rows, &mut dead, allocator) {
        Ok(mut pool) => {
            println!(rt; "done")?;
            for turn in history.turns {
                print_turn(rt, &mut pool, *turn)?;
            }
            Ok(())
        }
        Err(layer) => print_refusal(rt, layer),
    }
}

// Prints the history over an allocator just made, once that owns as many blocks as the history says.
fn print_over<A: BlockAllocator + Drop>(
    rt: &(impl Print + AllocGlobal),
    mut allocator: A,
    made: Result<(), MemoryCause>,
    history: &History,
) -> io::Result<()> {
    let name = history.name;
    println!(rt; "  {name}")?;
    if let Err(cause) = made {
        return print_refusal(rt, Layer::from(cause));
    }
    for _ in 0..history.owned {
        if let Err(cause) = allocator.take() {
            return print_refusal(rt, Layer::from(cause));
        }
    }
    print_history(rt, allocator, history)
}

fn print_over_bitmap(rt: &(impl Print + AllocGlobal), history: &History) -> io::Result<()> {
    let mut bits = [0u8; BITMAP_BYTES];
    let (allocator, made) = Bitmap::new(&mut bits, history.size);
    print_over(rt, allocator, made, history)
}

fn print_over_range_map(rt: &(impl Print + AllocGlobal), history: &History) -> io::Result<()> {
    let mut ranges = [FreeRange::UNUSED; FREE_RANGES];
    let (allocator, made) = RangeMap::new(&mut ranges, history.size);
    print_over(rt, allocator, made, history)
}

fn main(rt: HostRuntime) -> io::Result<()> {
    println!(rt; "bitmap")?;
    for history in &HISTORIES {
        print_over_bitmap(&rt, history)?;
    }
    println!(rt; "range map")?;
    for history in &HISTORIES {
        print_over_range_map(&rt, history)?;
    }
    Ok(())
}
