// What a pool is: its state, the calls, the questions that are put before a call, and what a granted call answers
// and leaves. All of it is said in specs/, in the subject's words; the code here is only the types that calls and
// answers are made of.
// Proved: a pool just formatted is sound, and every step keeps a sound pool sound; each position reads what was last
// written there; a file system is the rows that its head owns, and uses the sum of what is young in them; each record of
// a dead list lies in one of its buckets; two snapshots destroyed in either order leave the same pool and give back as
// many blocks; any life of a pool keeps its promises throughout; the worked histories are as they are told.
#![tactic(auto)]

ghost use Rattle.model.specs.Histories.{Histories};
ghost use Rattle.model.specs.Life.{LifeKept};
ghost use Rattle.model.specs.Laws.{EitherOrder, FormattedSound, OneBucket, OwnersTell, ReadsLast, StepsKeepSound, UsedIsSum};

// A call, as a script or a list of calls names it.
#[derive(Clone, Copy, Debug, PartialEq, Eq)]
pub enum Call<'t> {
    Create {
        number: u32,
        height: u32,
    },
    Write {
        number: u32,
        position: u32,
        text: &'t [u8],
    },
    Discard {
        number: u32,
        position: u32,
    },
    Read {
        number: u32,
        position: u32,
    },
    // Takes `snapshot` of head `number`.
    Snapshot {
        number: u32,
        snapshot: u32,
    },
    // Makes head `number` of a snapshot.
    Clone {
        snapshot: u32,
        number: u32,
    },
    Destroy {
        number: u32,
    },
    Unique {
        number: u32,
    },
    Used {
        number: u32,
    },
    Bucket {
        number: u32,
        bucket: u32,
    },
}

// What a granted change answers: how many blocks are owned after it and were not before, and the reverse.
#[derive(Clone, Copy, Debug, Default, PartialEq, Eq)]
pub struct Changed {
    pub taken: u32,
    pub given: u32,
}

// What a granted call answers.
#[derive(Clone, Copy, Debug, PartialEq, Eq)]
pub enum Answer {
    Done(Changed),
    // The bytes of a block, or nothing at a hole.
    Bytes(Option<[u8; 64]>),
    // A number of blocks.
    Count(u32),
    // A part of the dead table: how many records stand before it, and how many it has.
    Part { place: usize, len: usize },
}

// A pool just formatted is sound.
#[tactic(auto, using(crate::proofs::Starts::formatted_sound))]
pub fn formatted_is_sound()
    ensures { FormattedSound }
{}

// Whatever a call answers, a sound pool stays sound.
#[tactic(auto, using(crate::proofs::Keeps::steps_keep_sound))]
pub fn steps_keep_sound()
    ensures { StepsKeepSound }
{}

// A position reads what was last written there, and all others read as before.
#[tactic(auto, using(crate::proofs::Lasts::reads_last))]
pub fn reads_are_last_writes()
    ensures { ReadsLast }
{}

// A file system is the rows that its head owns.
pub fn owners_tell()
    ensures { OwnersTell }
{}

// What a file system uses is a sum over its rows.
pub fn used_is_a_sum()
    ensures { UsedIsSum }
{}

// Two snapshots destroyed in either order leave the same pool and give back as many blocks.
#[tactic(auto, using(crate::proofs::Orders::either_order))]
pub fn either_order_leaves_the_same()
    ensures { EitherOrder }
{}

// Each record of a dead list lies in exactly one of its buckets.
#[tactic(auto, using(crate::proofs::Buckets::one_bucket))]
pub fn dead_records_lie_in_one_bucket()
    ensures { OneBucket }
{}

// Every run of calls from a formatting on keeps what a pool's life promises, at its start and after every call.
#[tactic(auto, using(crate::proofs::Lives::life_kept))]
pub fn lives_keep_their_promises()
    ensures { LifeKept }
{}

// The worked histories: what these calls answer in every pool just formatted.
#[tactic(auto, using(crate::proofs::Histories::histories))]
pub fn histories_are_forced()
    ensures { Histories }
{}
