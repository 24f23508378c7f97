// Calls on a pool.
ghost use Rattle.std.specs.Prelude.{◌<◌};

use crate::tally::{Lots, Tally};
use blocks::{BlockAllocator, MOST_BLOCKS};
use pool::{MOST_ROWS, Pool};

// The calls of a round.
#[derive(Clone, Copy)]
pub enum Calls {
    // Any calls on a pool of few rows.
    Any,
    // Calls on a head with snapshots: edits of it and reads, questions for figures, and its snapshots destroyed.
    Edits,
    Figures,
    Oldest,
    Newest,
    Scattered,
}

// A head, and how many snapshots it has once it is grown.
#[derive(Clone, Copy)]
pub struct History {
    pub head: u32,
    pub snapshots: u32,
}

// The number of the oldest snapshot; the others follow.
const OLDEST: u32 = 2;

const MOST_SNAPSHOTS: usize = 200;

const HEIGHT: u32 = 4;

// Which positions are edited, from 0 on, and how often before each snapshot.
const POSITIONS: u32 = 256;

const EDITS: u32 = 96;

// Texts are ends of this one.
const TEXT: &[u8; 64] = b"Monday maths, Tuesday art, Wednesday music, Thursday PE, Friday.";

impl Calls {
    pub fn rows(self) -> usize {
        match self {
            Calls::Any => 8,
            _ => MOST_ROWS,
        }
    }
}

impl History {
    // As many snapshots as a pool of so many blocks has room for.
    pub fn on(blocks: u32, head: u32) -> History {
        let snapshots = blocks.saturating_mul(MOST_SNAPSHOTS as u32) / MOST_BLOCKS;
        History { head, snapshots }
    }

    // Where the numbers of the snapshots end.
    fn end(self) -> u32
        ensures { 0 < result }
    {
        self.snapshots.saturating_add(OLDEST)
    }
}

fn text(lots: &mut Lots) -> &'static [u8] {
    &TEXT[lots.below(64) as usize..]
}

// Any call, on any of a few datasets; about half are refused.
fn any_call<A: BlockAllocator + Drop>(pool: &mut Pool<'_, A>, lots: &mut Lots, tally: &mut Tally) {
    let number = 1 + lots.below(9);
    let other = 1 + lots.below(9);
    let position = lots.below(64);
    match lots.below(32) {
        0..=3 => tally.change(pool.create(number, 1 + lots.below(4))),
        4 => tally.change(pool.snapshot(number, other)),
        5 => tally.change(pool.clone_snapshot(number, other)),
        6 => tally.change(pool.destroy(number)),
        7 => tally.count(pool.unique(number)),
        8 => tally.count(pool.used(number)),
        9..=12 => tally.read(pool.read(number, position)),
        13 | 14 => tally.change(pool.discard(number, position)),
        _ => tally.change(pool.write(number, position, text(lots))),
    }
}

fn any_calls<A: BlockAllocator + Drop>(pool: &mut Pool<'_, A>, lots: &mut Lots, tally: &mut Tally) {
    for _ in 0..10_000 {
        any_call(pool, lots, tally);
    }
}

// Writes or discards a position of the head.
fn edit<A: BlockAllocator + Drop>(
    pool: &mut Pool<'_, A>,
    head: u32,
    lots: &mut Lots,
    tally: &mut Tally,
) {
    let position = lots.below(POSITIONS);
    if lots.below(8) == 0 {
        tally.change(pool.discard(head, position));
    } else {
        tally.change(pool.write(head, position, text(lots)));
    }
}

// Makes the head, and edits it before each of its snapshots.
fn grow<A: BlockAllocator + Drop>(
    pool: &mut Pool<'_, A>,
    history: History,
    lots: &mut Lots,
    tally: &mut Tally,
) {
    tally.change(pool.create(history.head, HEIGHT));
    for snapshot in OLDEST..history.end() {
        for _ in 0..EDITS {
            edit(pool, history.head, lots, tally);
        }
        tally.change(pool.snapshot(history.head, snapshot));
    }
}

// Edits the head, and reads any of its snapshots as often.
fn edit_and_read<A: BlockAllocator + Drop>(
    pool: &mut Pool<'_, A>,
    history: History,
    lots: &mut Lots,
    tally: &mut Tally,
) {
    for _ in 0..10_000 {
        edit(pool, history.head, lots, tally);
        let snapshot = lots.below(history.end()).max(OLDEST);
        tally.read(pool.read(snapshot, lots.below(POSITIONS)));
    }
}

// Asks for both figures of the head and of each snapshot, time and again.
fn ask_figures<A: BlockAllocator + Drop>(pool: &Pool<'_, A>, history: History, tally: &mut Tally) {
    for _ in 0..100 {
        tally.count(pool.unique(history.head));
        tally.count(pool.used(history.head));
        for snapshot in OLDEST..history.end() {
            tally.count(pool.unique(snapshot));
            tally.count(pool.used(snapshot));
        }
    }
}

fn destroy_oldest_first<A: BlockAllocator + Drop>(
    pool: &mut Pool<'_, A>,
    history: History,
    tally: &mut Tally,
) {
    for snapshot in OLDEST..history.end() {
        tally.change(pool.destroy(snapshot));
    }
}

fn destroy_newest_first<A: BlockAllocator + Drop>(
    pool: &mut Pool<'_, A>,
    history: History,
    tally: &mut Tally,
) {
    for snapshot in (OLDEST..history.end()).rev() {
        tally.change(pool.destroy(snapshot));
    }
}

// The numbers of as many snapshots as there can be, in an order that is neither theirs nor the reverse.
fn scattered() -> [u32; MOST_SNAPSHOTS] {
    let mut numbers = [OLDEST; MOST_SNAPSHOTS];
    for i in 0..MOST_SNAPSHOTS {
        numbers[i] = OLDEST + i as u32;
    }
    numbers.sort_unstable_by_key(|number| number.wrapping_mul(2_654_435_769));
    numbers
}

fn destroy_scattered<A: BlockAllocator + Drop>(
    pool: &mut Pool<'_, A>,
    history: History,
    tally: &mut Tally,
) {
    for snapshot in scattered() {
        if snapshot < history.end() {
            tally.change(pool.destroy(snapshot));
        }
    }
}

// The calls that come before those that are timed.
pub fn set_up<A: BlockAllocator + Drop>(
    pool: &mut Pool<'_, A>,
    calls: Calls,
    history: History,
    lots: &mut Lots,
    tally: &mut Tally,
) {
    match calls {
        Calls::Any => {}
        _ => grow(pool, history, lots, tally),
    }
}

// Those that are timed.
pub fn perform<A: BlockAllocator + Drop>(
    pool: &mut Pool<'_, A>,
    calls: Calls,
    history: History,
    lots: &mut Lots,
    tally: &mut Tally,
) {
    match calls {
        Calls::Any => any_calls(pool, lots, tally),
        Calls::Edits => edit_and_read(pool, history, lots, tally),
        Calls::Figures => ask_figures(pool, history, tally),
        Calls::Oldest => destroy_oldest_first(pool, history, tally),
        Calls::Newest => destroy_newest_first(pool, history, tally),
        Calls::Scattered => destroy_scattered(pool, history, tally),
    }
}
