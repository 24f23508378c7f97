// The histories. All heights are 1.

// One call of a history: its dataset, then a height or a position, then a text.
#[derive(Clone, Copy)]
pub enum Turn {
    Create(u32, u32),
    Write(u32, u32, &'static str),
    Discard(u32, u32),
    Read(u32, u32),
}

// The calls on a pool of so many blocks, formatted over so many bytes for an allocator that owns so many blocks.
#[derive(Clone, Copy)]
pub struct History {
    pub name: &'static str,
    pub size: u32,
    pub bytes: usize,
    pub owned: u32,
    pub turns: &'static [Turn],
}

// Texts of 64 and of 65 bytes.
const LONGEST: &str = "maths art music sport maths art music sport maths art music PE 1";

const TOO_LONG: &str = "maths art music sport maths art music sport maths art music PE 12";

pub const HISTORIES: [History; 6] = [
    History {
        name: "no room for a second path",
        size: 2,
        bytes: 128,
        owned: 0,
        turns: &[
            Turn::Create(1, 1),
            Turn::Write(1, 0, "maths"),
            Turn::Write(1, 0, "art"),
        ],
    },
    History {
        name: "room for a second path",
        size: 4,
        bytes: 256,
        owned: 0,
        turns: &[
            Turn::Create(1, 1),
            Turn::Write(1, 0, "maths"),
            Turn::Write(1, 0, "art"),
        ],
    },
    History {
        name: "discards",
        size: 4,
        bytes: 256,
        owned: 0,
        turns: &[
            Turn::Create(1, 1),
            Turn::Write(1, 0, "maths"),
            Turn::Write(1, 1, "art"),
            Turn::Discard(1, 1),
            Turn::Discard(1, 0),
            Turn::Read(1, 0),
            Turn::Discard(1, 0),
        ],
    },
    History {
        name: "texts and refusals",
        size: 4,
        bytes: 256,
        owned: 0,
        turns: &[
            Turn::Create(1, 1),
            Turn::Write(1, 0, "maths"),
            Turn::Read(1, 0),
            Turn::Read(1, 1),
            Turn::Write(1, 7, LONGEST),
            Turn::Read(1, 7),
            Turn::Write(1, 0, TOO_LONG),
            Turn::Write(1, 8, "art"),
            Turn::Discard(1, 8),
            Turn::Read(1, 8),
            Turn::Write(2, 0, "art"),
            Turn::Read(2, 0),
            Turn::Create(0, 1),
            Turn::Read(0, 0),
            Turn::Read(1, 0),
        ],
    },
    History {
        name: "memory a byte short",
        size: 4,
        bytes: 255,
        owned: 0,
        turns: &[],
    },
    History {
        name: "an allocator that owns a block",
        size: 4,
        bytes: 256,
        owned: 1,
        turns: &[],
    },
];
