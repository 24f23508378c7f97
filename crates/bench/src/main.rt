// Runs a workload on a pool or an allocator of so many blocks, for tools/bench.py, which times it:
// `bench NAME BLOCKS ROUNDS`; without arguments each workload once, on a small one. Each round prints what its calls came
// to, and waits for a line, twice before its setting up, after it, and after the calls that are timed.
#![tactic(auto)]

use blocks::{Bitmap, BlockAllocator};
use faults::Layer;
use pool::{MOST_DEAD, Pool};
use pools::{Calls, History};
use ranges::RangeMap;
use records::dead::DeadRecord;
use records::ranges::FreeRange;
use records::rows::Row;
use std::{env, io};
use tally::{Lots, Tally};
use tree::BLOCK_BYTES;

mod allocators;
mod pools;
mod tally;

#[derive(Clone, Copy)]
enum Workload {
    // On a pool, and in it on a head with that number.
    Pool(Calls, u32),
    // On an allocator that is full, or that has every second block free.
    Bits { thin: bool },
    Ranges { thin: bool },
}

// The numbers of a head below its snapshots and of one above them.
const BELOW: u32 = 1;

const ABOVE: u32 = 999;

const WORKLOADS: [(&str, Workload); 12] = [
    ("any", Workload::Pool(Calls::Any, BELOW)),
    ("edits", Workload::Pool(Calls::Edits, BELOW)),
    ("edits-above", Workload::Pool(Calls::Edits, ABOVE)),
    ("figures", Workload::Pool(Calls::Figures, BELOW)),
    ("oldest", Workload::Pool(Calls::Oldest, BELOW)),
    ("newest", Workload::Pool(Calls::Newest, BELOW)),
    ("newest-above", Workload::Pool(Calls::Newest, ABOVE)),
    ("scattered", Workload::Pool(Calls::Scattered, BELOW)),
    ("full-bits", Workload::Bits { thin: false }),
    ("thin-bits", Workload::Bits { thin: true }),
    ("full-ranges", Workload::Ranges { thin: false }),
    ("thin-ranges", Workload::Ranges { thin: true }),
];

// What stands in a place that holds no dead record.
const UNUSED: DeadRecord = DeadRecord {
    dataset: 0,
    birth: 0,
    block: 0,
};

fn print_refusal(rt: &impl Print, layer: Layer) -> io::Result<()> {
    let number = layer.number();
    println!(rt; "refused, {number}")
}

// Prints what the calls came to, and waits for a line, so that the time up to here can be read off.
fn mark(rt: &(impl Print + Input + AllocGlobal), tally: &Tally) -> io::Result<()> {
    let Tally {
        calls,
        refused,
        taken,
        given,
        figures,
    } = *tally;
    println!(rt;
        "{calls} calls, {refused} refused, {taken} taken, {given} given, {figures} figures"
    )?;
    let mut line = String::new(rt.alloc());
    rt.read_line(&mut line)?;
    Ok(())
}

fn run_pool(
    rt: &(impl Print + Input + AllocGlobal),
    calls: Calls,
    history: History,
    blocks: u32,
    rounds: u32,
) -> io::Result<()> {
    let mut bits = vec![in rt.alloc(); 0u8; (blocks as usize).div_ceil(8)]?;
    let mut memory = vec![in rt.alloc(); 0u8; BLOCK_BYTES * blocks as usize]?;
    let mut rows = vec![in rt.alloc(); Row::UNUSED; calls.rows()]?;
    let mut dead = vec![in rt.alloc(); UNUSED; MOST_DEAD]?;
    let mut lots = Lots::new();
    let mut tally = Tally::default();
    for _ in 0..rounds {
        let (allocator, _) = Bitmap::new(&mut bits, blocks);
        match Pool::format(&mut memory, &mut rows, &mut dead, allocator) {
            Err(layer) => return print_refusal(rt, layer),
            Ok(mut pool) => {
                mark(rt, &tally)?;
                mark(rt, &tally)?;
                pools::set_up(&mut pool, calls, history, &mut lots, &mut tally);
                mark(rt, &tally)?;
                pools::perform(&mut pool, calls, history, &mut lots, &mut tally);
                mark(rt, &tally)?;
            }
        }
    }
    Ok(())
}

// Rounds on an allocator that owns nothing; `held` has a place for each of its blocks.
fn swap_rounds<A: BlockAllocator>(
    rt: &(impl Print + Input + AllocGlobal),
    allocator: &mut A,
    held: &mut [u32],
    thin: bool,
    rounds: u32,
    tally: &mut Tally,
) -> io::Result<()> {
    let mut lots = Lots::new();
    let pairs = (allocator.size() / 2).max(1);
    allocators::fill(allocator, held, tally);
    if thin {
        allocators::thin(allocator, held, tally);
    }
    for _ in 0..rounds {
        mark(rt, tally)?;
        mark(rt, tally)?;
        mark(rt, tally)?;
        allocators::swap(allocator, held, pairs, &mut lots, tally);
        mark(rt, tally)?;
    }
    Ok(())
}

fn run_bits(
    rt: &(impl Print + Input + AllocGlobal),
    thin: bool,
    blocks: u32,
    rounds: u32,
) -> io::Result<()> {
    let mut bits = vec![in rt.alloc(); 0u8; (blocks as usize).div_ceil(8)]?;
    let mut held = vec![in rt.alloc(); 0u32; blocks as usize]?;
    let mut tally = Tally::default();
    let (mut allocator, _) = Bitmap::new(&mut bits, blocks);
    swap_rounds(rt, &mut allocator, &mut held, thin, rounds, &mut tally)?;
    // Which blocks a range map hands out the peer's set does not tell.
    allocators::add_up(&held, &mut tally);
    mark(rt, &tally)
}

fn run_ranges(
    rt: &(impl Print + Input + AllocGlobal),
    thin: bool,
    blocks: u32,
    rounds: u32,
) -> io::Result<()> {
    let mut ranges = vec![in rt.alloc(); FreeRange::UNUSED; (blocks as usize).div_ceil(2)]?;
    let mut held = vec![in rt.alloc(); 0u32; blocks as usize]?;
    let mut tally = Tally::default();
    let (mut allocator, _) = RangeMap::new(&mut ranges, blocks);
    swap_rounds(rt, &mut allocator, &mut held, thin, rounds, &mut tally)
}

fn run(
    rt: &(impl Print + Input + AllocGlobal),
    workload: Workload,
    blocks: u32,
    rounds: u32,
) -> io::Result<()> {
    match workload {
        Workload::Pool(calls, head) => {
            run_pool(rt, calls, History::on(blocks, head), blocks, rounds)
        }
        Workload::Bits { thin } => run_bits(rt, thin, blocks, rounds),
        Workload::Ranges { thin } => run_ranges(rt, thin, blocks, rounds),
    }
}

fn main(rt: HostRuntime) -> io::Result<()> {
    let mut words = env::args(&rt)?.skip(1);
    let asked = words.next();
    let blocks = words
        .next()
        .and_then(|word| word.parse().ok())
        .unwrap_or(1_024);
    let rounds = words.next().and_then(|word| word.parse().ok()).unwrap_or(1);
    for (name, workload) in WORKLOADS {
        if asked.as_ref().is_none_or(|word| word.as_str() == name) {
            println!(rt; "{name}")?;
            run(&rt, workload, blocks, rounds)?;
        }
    }
    Ok(())
}
