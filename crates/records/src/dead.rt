// Dead records, found by all that they hold.
ghost use Rattle.records.specs.Keys.{dead_key, dead_below, dead_list, dead_moved};
ghost use Rattle.std.proofs.Common.{rules};

use ordered::keys::Key;
use ordered::lists::Listed;
use ordered::records::Record;

// A block that the previous of a dataset reaches and the dataset does not. It is its own key: dataset comes before
// birth, and birth before block.
#[derive(Clone, Copy, Debug, PartialEq, Eq, PartialOrd, Ord)]
pub struct DeadRecord {
    pub dataset: u32,
    pub birth: u32,
    pub block: u32,
}

impl DeadRecord {
    // What dead records may be filled with before they are lent. A constant, like a row's.
    pub const UNUSED: DeadRecord = DeadRecord {
        dataset: 0,
        birth: 0,
        block: 0,
    };
}

impl Key for DeadRecord {
    ghost below = { dead_below };

    ghost laws = { Prim.search rules };
}

impl Record for DeadRecord {
    type Key = DeadRecord;

    ghost keyed = { dead_key };

    fn key(&self) -> DeadRecord {
        *self
    }
}

// A dataset's dead records are a list of the table.
impl Listed for DeadRecord {
    ghost listed = { dead_list };

    ghost moved_to = { dead_moved };

    fn list(&self) -> u32 {
        self.dataset
    }

    fn moved(self, list: u32) -> DeadRecord {
        DeadRecord {
            dataset: list,
            ..self
        }
    }

    ghost listing = { Prim.search rules };
}
