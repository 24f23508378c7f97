// Why a call or a line was refused. A cause belongs to a layer: the script, the pool, or the memory below it. It
// rises from storage to the pool's answer as a `Layer`, and from there to the console as a `Fault`, which has the
// line beside it.
// Proved: the number and the letter of every cause; that no two causes share a number; that each step upwards keeps
// the cause as it was.
#![tactic(auto)]

ghost use Rattle.std.specs.Prelude.{◌≡◌};
ghost use Rattle.faults.specs.Numbers.{fault_number, fault_letter, Alone};
ghost use Rattle.faults.specs.declared.Layer.TheVariants.{Script, Pool, Memory};

// What is wrong with a script or a line of it.
#[derive(Clone, Copy, Debug, PartialEq, Eq)]
pub enum ScriptCause {
    // The script is too long, or the output buffer too short.
    Size,
    // The line does not open with a known letter and a space.
    Letter,
    // The line has not as many words as its letter wants.
    WordCount,
    // A word is no number of one to five digits.
    Digits,
    // The text has not 1 to 64 printable bytes.
    Text,
}

// What is wrong with the datasets that a call names.
#[derive(Clone, Copy, Debug, PartialEq, Eq)]
pub enum PoolCause {
    // A dataset number is not 1 to 999.
    DatasetNumber,
    // There is no such dataset.
    NoDataset,
    // It is a snapshot and not a head, or a head and not a snapshot.
    WrongKind,
    // The new dataset's number is in use.
    NumberUsed,
    // A height, a position, a bucket or the length of what is written is out of range.
    OutOfRange,
    // The snapshot has clones.
    HasClones,
    // The head has snapshots of its own.
    HasSnapshots,
    // The memory holds no pool.
    NoPool,
}

// What the memory below cannot hold or give.
#[derive(Clone, Copy, Debug, PartialEq, Eq)]
pub enum MemoryCause {
    // The row table is full.
    RowsFull,
    // The group number is at its limit.
    GroupsSpent,
    // Fewer blocks are free than the call takes.
    BlocksShort,
    // The dead table cannot hold the dead lists after the call.
    DeadFull,
    // A size or a length of lent memory is out of range.
    BadShape,
    // The allocator owns blocks already.
    NotEmpty,
}

// The layer that refused, with its cause.
#[derive(Clone, Copy, Debug, PartialEq, Eq)]
pub enum Layer {
    Script(ScriptCause),
    Pool(PoolCause),
    Memory(MemoryCause),
}

// A refused line: the layer that refused it, and its number, counted from 1.
#[derive(Clone, Copy, Debug, PartialEq, Eq)]
pub struct Fault {
    pub layer: Layer,
    pub line: u32,
}

// The numbers stand in a table for each layer: as the variants' own numbers they would want one cast, written three
// times.
impl ScriptCause {
    pub fn number(self) -> u8
        ensures value { result ≡ fault_number (Script self) }
    {
        match self {
            ScriptCause::Size => 1,
            ScriptCause::Letter => 2,
            ScriptCause::WordCount => 3,
            ScriptCause::Digits => 4,
            ScriptCause::Text => 5,
        }
    }
}

impl PoolCause {
    pub fn number(self) -> u8
        ensures value { result ≡ fault_number (Pool self) }
    {
        match self {
            PoolCause::DatasetNumber => 6,
            PoolCause::NoDataset => 7,
            PoolCause::WrongKind => 8,
            PoolCause::NumberUsed => 9,
            PoolCause::OutOfRange => 10,
            PoolCause::HasClones => 11,
            PoolCause::HasSnapshots => 12,
            PoolCause::NoPool => 19,
        }
    }
}

impl MemoryCause {
    pub fn number(self) -> u8
        ensures value { result ≡ fault_number (Memory self) }
    {
        match self {
            MemoryCause::RowsFull => 13,
            MemoryCause::GroupsSpent => 14,
            MemoryCause::BlocksShort => 15,
            MemoryCause::DeadFull => 16,
            MemoryCause::BadShape => 17,
            MemoryCause::NotEmpty => 18,
        }
    }
}

impl Layer {
    // The number that a refusal prints, which no other cause has.
    pub fn number(self) -> u8
        ensures value { result ≡ fault_number self }
        ensures alone { Alone result self }
    {
        match self {
            Layer::Script(script) => script.number(),
            Layer::Pool(pool) => pool.number(),
            Layer::Memory(memory) => memory.number(),
        }
    }

    // The letter that a refusal prints.
    pub fn letter(self) -> u8
        ensures value { result ≡ fault_letter self }
    {
        match self {
            Layer::Script(_) => b's',
            Layer::Pool(_) => b'p',
            Layer::Memory(_) => b'm',
        }
    }

    // The fault of that line.
    pub fn on_line(self, line: u32) -> Fault
        ensures value { result ≡ record { layer = self; line = line } }
    {
        Fault { layer: self, line }
    }
}

impl From<ScriptCause> for Layer {
    ghost from_gives = { λ cause r. r ≡ Script cause };

    fn from(cause: ScriptCause) -> Layer {
        Layer::Script(cause)
    }
}

impl From<PoolCause> for Layer {
    ghost from_gives = { λ cause r. r ≡ Pool cause };

    fn from(cause: PoolCause) -> Layer {
        Layer::Pool(cause)
    }
}

impl From<MemoryCause> for Layer {
    ghost from_gives = { λ cause r. r ≡ Memory cause };

    fn from(cause: MemoryCause) -> Layer {
        Layer::Memory(cause)
    }
}
