// A school's year: timetables published, a draft tried and thrown away, and two old timetables deleted, in one order in
// the first pool and in the other order in the second. Each call and what it answered is printed.
#![tactic(auto)]

use blocks::{Bitmap, BlockAllocator};
use faults::{Layer, MemoryCause, PoolCause};
use life::run;
use model::{Answer, Call, Changed};
use pool::Pool;
use ranges::RangeMap;
use records::dead::DeadRecord;
use records::ranges::FreeRange;
use records::rows::Row;
use std::io;
use std::io::Write;

mod year;

use year::{AFTER, NEWEST_FIRST, OLDEST_FIRST, YEAR};

// Blocks, and what a pool and an allocator of so many need.
const BLOCKS: u32 = 64;

const BYTES: usize = 4096;

const BITMAP_BYTES: usize = 8;

const FREE_RANGES: usize = 32;

const ROWS: usize = 8;

const DEAD: usize = 64;

fn print_call(rt: &impl Print, call: Call<'_>) -> io::Result<()> {
    match call {
        Call::Create { number, height } => print!(rt; "create {number}, height {height}"),
        Call::Write {
            number,
            position,
            text,
        } => {
            print!(rt; "write {number} at {position} ")?;
            io::writer(rt).write_all(text)
        }
        Call::Discard { number, position } => print!(rt; "discard {number} at {position}"),
        Call::Read { number, position } => print!(rt; "read {number} at {position}"),
        Call::Snapshot { number, snapshot } => print!(rt; "snapshot {number} as {snapshot}"),
        Call::Clone { snapshot, number } => print!(rt; "clone {snapshot} as {number}"),
        Call::Destroy { number } => print!(rt; "destroy {number}"),
        Call::Unique { number } => print!(rt; "unique {number}"),
        Call::Used { number } => print!(rt; "used {number}"),
        Call::Bucket { number, bucket } => print!(rt; "bucket {number} {bucket}"),
    }
}

// The bytes before the first zero byte, or all where there is none.
fn before_zero(bytes: &[u8]) -> &[u8] {
    let end = bytes
        .iter()
        .position(|byte| *byte == 0)
        .unwrap_or(bytes.len());
    &bytes[..end]
}

fn print_refusal(rt: &impl Print, layer: Layer) -> io::Result<()> {
    let number = layer.number();
    let letter = char::from(layer.letter());
    println!(rt; "refused, {number} {letter}")
}

fn print_answer(rt: &impl Print, answer: Result<Answer, Layer>) -> io::Result<()> {
    match answer {
        Ok(Answer::Done(Changed { taken, given })) => println!(rt; "{taken} taken, {given} given"),
        Ok(Answer::Bytes(Some(block))) => {
            io::writer(rt).write_all(before_zero(&block))?;
            println!(rt; "")
        }
        Ok(Answer::Bytes(None)) => println!(rt; "hole"),
        Ok(Answer::Count(count)) => println!(rt; "{count} blocks"),
        Ok(Answer::Part { place, len }) => println!(rt; "{len} dead records from {place} on"),
        Err(layer) => print_refusal(rt, layer),
    }
}

// The life of a pool over the allocator: the year, the deletions after it, and what is left.
fn live<A: BlockAllocator + Drop>(
    rt: &(impl Print + AllocGlobal),
    allocator: A,
    deletions: &[Call<'static>],
) -> io::Result<()> {
    let mut memory = vec![in rt.alloc(); 0u8; BYTES]?;
    let mut rows = [Row::UNUSED; ROWS];
    let mut dead = [DeadRecord::UNUSED; DEAD];
    let mut pool = match Pool::format(&mut memory, &mut rows, &mut dead, allocator) {
        Ok(pool) => pool,
        Err(layer) => return print_refusal(rt, layer),
    };
    let mut calls = Vec::new(rt.alloc());
    calls.extend_from_slice(&YEAR)?;
    calls.extend_from_slice(deletions)?;
    calls.extend_from_slice(&AFTER)?;
    let mut answers = vec![in rt.alloc(); Err(Layer::Pool(PoolCause::NoPool)); calls.len()]?;
    run(&mut pool, &calls, &mut answers);
    for (call, answer) in calls.iter().zip(&answers) {
        print!(rt; "  ")?;
        print_call(rt, *call)?;
        print!(rt; ": ")?;
        print_answer(rt, *answer)?;
    }
    Ok(())
}

fn main(rt: HostRuntime) -> io::Result<()> {
    println!(rt; "a bitmap, the oldest deleted first")?;
    let mut bits = [0u8; BITMAP_BYTES];
    let (bitmap, _) = Bitmap::new(&mut bits, BLOCKS);
    live(&rt, bitmap, &OLDEST_FIRST)?;
    println!(rt; "a range map, the newest deleted first")?;
    let mut ranges = [FreeRange::UNUSED; FREE_RANGES];
    let (map, _) = RangeMap::new(&mut ranges, BLOCKS);
    live(&rt, map, &NEWEST_FIRST)
}
