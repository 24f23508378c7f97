// The life of a pool: calls done one after another, from its formatting on.
// Proved, over every allocator that only its own calls have changed and that owns nothing, whatever block memory held at
// first: after every call, granted or refused, the owned blocks are those that some dataset reaches, and a block is given
// back once, in the first call after which none does; unique and used tell what they should, and all counts add up; a
// snapshot reads as its head read when it was taken; a head reads what was last written; a refused call was refused for
// the first question answered no, and changed nothing.
#![tactic(auto)]

ghost use Rattle.std.specs.Prelude.{◌≡◌, min, length, take, drop, OnErr};
ghost use Rattle.std.specs.List.{zip};
ghost use Rattle.model.specs.Life.{Formatted, Life, Run, transcript};
ghost use Rattle.model.specs.Steps.{Step};
ghost use Rattle.pool.specs.Pools.{Intact, state_of};

use blocks::BlockAllocator;
use faults::Layer;
use model::{Answer, Call};
use pool::Pool;

// Has the pool do one call.
pub fn perform<A: BlockAllocator + Drop>(
    pool: &mut Pool<'_, A>,
    call: Call<'_>,
) -> Result<Answer, Layer>
    ensures step { Intact A.sound A.meaning pool.old → Step (state_of A.meaning pool.old) call.entry result (state_of A.meaning pool.new) }
    ensures sound { Intact A.sound A.meaning pool.old → Intact A.sound A.meaning pool.new }
    ensures refused { Intact A.sound A.meaning pool.old → OnErr result (pool.new ≡ pool.old) }
{
    match call {
        Call::Create { number, height } => pool.create(number, height).map(Answer::Done),
        Call::Write {
            number,
            position,
            text,
        } => pool.write(number, position, text).map(Answer::Done),
        Call::Discard { number, position } => pool.discard(number, position).map(Answer::Done),
        Call::Read { number, position } => pool
            .read(number, position)
            .map(|found| Answer::Bytes(found.copied())),
        Call::Snapshot { number, snapshot } => pool.snapshot(number, snapshot).map(Answer::Done),
        Call::Clone { snapshot, number } => pool.clone_snapshot(snapshot, number).map(Answer::Done),
        Call::Destroy { number } => pool.destroy(number).map(Answer::Done),
        Call::Unique { number } => pool.unique(number).map(Answer::Count),
        Call::Used { number } => pool.used(number).map(Answer::Count),
        Call::Bucket { number, bucket } => {
            let (part, place) = pool.bucket(number, bucket)?;
            Ok(Answer::Part {
                place,
                len: part.len(),
            })
        }
    }
}

// Has the pool do the calls in turn, and notes what each answers; as many as there are places for their answers. From a
// formatting on this is a life of the pool.
#[tactic(auto, using(crate::proofs::Turns::lived))]
pub fn run<A: BlockAllocator + Drop>(
    pool: &mut Pool<'_, A>,
    calls: &[Call<'_>],
    answers: &mut [Result<Answer, Layer>],
) -> usize
    ensures steps { Intact A.sound A.meaning pool.old → (run : Run (state_of A.meaning pool.old) (state_of A.meaning pool.new)) × (transcript run ≡ zip (take result calls.now) (take result answers.new)) }
    ensures life { Intact A.sound A.meaning pool.old → Formatted (state_of A.meaning pool.old) → Life (state_of A.meaning pool.old) (zip (take result calls.now) (take result answers.new)) (state_of A.meaning pool.new) }
    ensures count { result ≡ min (length calls.now) (length answers.old) }
    ensures rest { drop result answers.new ≡ drop result answers.old }
    ensures sound { Intact A.sound A.meaning pool.old → Intact A.sound A.meaning pool.new }
{
    let count = calls.len().min(answers.len());
    // By index: of a slice that an iterator wrote beside another a proof knows the length alone.
    for index in 0..count {
        answers[index] = perform(pool, calls[index]);
    }
    count
}
