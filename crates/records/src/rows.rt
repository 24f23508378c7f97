// Dataset rows, found by the dataset's number.
ghost use Rattle.records.specs.Keys.{number_of};

use ordered::records::Record;

// Where a block is, and the group number when it was taken.
#[derive(Clone, Copy, Debug, PartialEq, Eq)]
pub struct Pointer {
    pub block: u32,
    pub birth: u32,
}

// What a dataset is.
#[derive(Clone, Copy, Debug, PartialEq, Eq)]
pub enum Kind {
    // It can be written. `origin` is the snapshot that it was cloned from.
    Head { origin: Option<u32> },
    // It cannot. `stamp` is the group number when it was taken.
    Snapshot { stamp: u32 },
}

// A dataset.
#[derive(Clone, Copy, Debug, PartialEq, Eq)]
pub struct Row {
    pub number: u32,
    // The levels of its tree above the data.
    pub height: u32,
    // The block at the top of its tree, or a hole.
    pub root: Option<Pointer>,
    // The snapshot before it.
    pub previous: Option<u32>,
    // The head of its file system.
    pub owner: u32,
    pub kind: Kind,
    // How many blocks it reaches that were born after the stamp of its previous.
    pub born: u32,
}

impl Row {
    // What a row table may be filled with before it is lent: places past the last row hold anything. A constant and no
    // default, as no kind of dataset is one.
    pub const UNUSED: Row = Row {
        number: 0,
        height: 0,
        root: None,
        previous: None,
        owner: 0,
        kind: Kind::Head { origin: None },
        born: 0,
    };
}

impl Record for Row {
    type Key = u32;

    ghost keyed = { number_of };

    fn key(&self) -> u32 {
        self.number
    }
}
