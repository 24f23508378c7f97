// A console in the middle of its script.
ghost use Rattle.std.specs.Prelude.{◌≡◌, ℕ, ◌≤◌, List, length, take, drop, IfErr, IfOk, MatchOption, MatchResult};
ghost use Rattle.faults.specs.declared.Layer.TheVariants.{Script};
ghost use Rattle.faults.specs.declared.ScriptCause.TheVariants.{Size, Letter};
ghost use Rattle.script.specs.Consoles.{Answered, FirstLine, Names, NamesAllocator, Next, Obeyed, Over, ended, nothing_moved, opened};
ghost use Rattle.script.specs.Sessions.{NewAllocator, Ready, Whole, console_of, held};
ghost use Rattle.script.specs.Shown.{Buffer, shown};

use crate::answers;
use crate::calls::read_call;
use crate::lines::Lines;
use crate::parts::Part;
use faults::{Fault, Layer, ScriptCause};
use life::perform;
use makes::{AnyAllocator, Make};
use model::{Answer, Changed};
use pool::Pool;
use records::dead::DeadRecord;
use records::ranges::FreeRange;
use records::rows::Row;
use tree::BLOCK_BYTES;

// The fewest bytes that the output buffer has.
pub const SHORTEST_BUFFER: usize = 80;

// The blocks, rows and dead records of the console's pool.
const BLOCKS: u32 = 256;

pub const ROWS: usize = 64;

pub const DEAD_RECORDS: usize = 512;

// What that many blocks want, and a bitmap and a range map of them.
pub const MEMORY_BYTES: usize = BLOCKS as usize * BLOCK_BYTES;

pub const BITMAP_BYTES: usize = (BLOCKS as usize + 7) / 8;

pub const FREE_RANGES: usize = (BLOCKS as usize + 1) / 2;

// The memory that a console is lent.
pub struct Memory<'m> {
    pub memory: &'m mut [u8; MEMORY_BYTES],
    pub rows: &'m mut [Row; ROWS],
    pub dead: &'m mut [DeadRecord; DEAD_RECORDS],
    pub bits: &'m mut [u8; BITMAP_BYTES],
    pub ranges: &'m mut [FreeRange; FREE_RANGES],
}

// That the pool is whole is a premise of the clauses, since lent memory may hold anything.
#[derive(Drop)]
pub struct Session<'s, 'm> {
    lines: Lines<'s>,
    pool: Pool<'m, AnyAllocator<'m>>,
}

// The make that a first line names.
impl TryFrom<Part<'_>> for Make {
    type Error = ScriptCause;

    ghost try_from_gives = { λ line named. MatchResult named (Names line.bytes.now) (λ c. (c ≡ Letter) × (NamesAllocator line.bytes.now → ⊥)) };

    fn try_from(line: Part<'_>) -> Result<Make, ScriptCause> {
        let [letter] = line.bytes else {
            return Err(ScriptCause::Letter);
        };
        match char::from(*letter) {
            'b' => Ok(Make::Bits),
            'm' => Ok(Make::Ranges),
            _ => Err(ScriptCause::Letter),
        }
    }
}

// The make that the script's first line names; any, where it names none.
fn first_make(script: &[u8]) -> Make
    ensures named { (line rest : List ℕ) (m : Make) → FirstLine script.now line rest → Names line m → result ≡ m }
{
    let (line, _) = Part::from(script).cut(b'\n');
    Make::try_from(line).unwrap_or(Make::Bits)
}

// What a later line answers: the pool does what it says.
fn obey(pool: &mut Pool<'_, AnyAllocator<'_>>, line: Part<'_>) -> Result<Answer, Layer>
    ensures obeyed { Whole pool.old → Obeyed (held pool.old) line.entry.bytes.now result (held pool.new) }
    ensures whole { Whole pool.old → Whole pool.new }
{
    let call = read_call(line)?;
    perform(pool, call)
}

impl<'s, 'm> Session<'s, 'm> {
    // A console at the start of the script, with an empty pool over the allocator that the first line names.
    pub fn open(script: &'s [u8], memory: Memory<'m>) -> Session<'s, 'm>
        ensures value { console_of result ≡ opened memory.entry.memory.now script.now }
        ensures ready { Ready result }
        ensures allocator { NewAllocator script.now result.pool.allocator }
    {
        // Memory of these lengths holds a pool, and an allocator of either make.
        let Memory {
            memory,
            rows,
            dead,
            bits,
            ranges,
        } = memory;
        let (allocator, Ok(())) = AnyAllocator::new(first_make(script), BLOCKS, bits, ranges) else {
            unreachable!()
        };
        let Ok(pool) = Pool::format(memory, rows, dead, allocator) else {
            unreachable!()
        };
        Session {
            lines: Lines::new(script),
            pool,
        }
    }

    // Writes the next line that the script prints at the start of the buffer, and says how long it is; or nothing where
    // the script is over.
    pub fn print_next(&mut self, out: &mut [u8]) -> Result<Option<usize>, ScriptCause>
        ensures printed { Ready self.old → IfOk result (λ p. MatchOption p (Over (console_of self.old) × (console_of self.new ≡ console_of self.old)) (λ n. Next (console_of self.old) (take n out.new) (console_of self.new))) }
        ensures written { IfOk result (λ p. Buffer (length out.old) × MatchOption p (out.new ≡ out.old) (λ n. (n ≤ length out.old) × (drop n out.new ≡ drop n out.old))) }
        ensures short { IfErr result (λ c. (c ≡ Size) × (Buffer (length out.old) → ⊥) × (self.new ≡ self.old) × (out.new ≡ out.old)) }
        ensures ready { Ready self.old → Ready self.new }
    {
        if out.len() < SHORTEST_BUFFER {
            return Err(ScriptCause::Size);
        }
        let Some(answer) = self.answer_next() else {
            return Ok(None);
        };
        Ok(Some(answers::print(answer, out)))
    }

    // What the next line answers, or nothing where no more is read.
    fn answer_next(&mut self) -> Option<Result<Answer, Fault>>
        ensures cases { Ready self.old → MatchOption result (Over (console_of self.old) × (console_of self.new ≡ console_of self.old)) (λ a. Next (console_of self.old) (shown a) (console_of self.new)) }
        ensures ready { Ready self.old → Ready self.new }
    {
        let answer = match self.lines.next()? {
            Ok(line) => self
                .answer_line(line)
                .map_err(|layer| layer.on_line(self.lines.read)),
            Err(cause) => Err(Layer::from(cause).on_line(0)),
        };
        Some(answer)
    }

    // What that line answers, which was just read.
    fn answer_line(&mut self, line: Part<'_>) -> Result<Answer, Layer>
        ensures answered { Ready self.old → 1 ≤ self.old.lines.read → Answered (console_of self.old) line.entry.bytes.now result (console_of self.new) }
        ensures read { self.new.lines.read ≡ self.old.lines.read }
        ensures ready { Ready self.old → Ready self.new }
    {
        if self.lines.read == 1 {
            self.answer_first(line)
        } else {
            obey(&mut self.pool, line)
        }
    }

    // What the first line answers. After one that names no allocator, no more is read.
    fn answer_first(&mut self, line: Part<'_>) -> Result<Answer, Layer>
        ensures cases { MatchResult result (λ a. NamesAllocator line.entry.bytes.now × (a ≡ nothing_moved) × (console_of self.new ≡ console_of self.old)) (λ l. (NamesAllocator line.entry.bytes.now → ⊥) × (l ≡ Script Letter) × (console_of self.new ≡ ended (console_of self.old))) }
        ensures ready { Ready self.old → Ready self.new }
    {
        match Make::try_from(line) {
            Ok(_) => Ok(Answer::Done(Changed::default())),
            Err(cause) => {
                self.lines.stop();
                Err(Layer::from(cause))
            }
        }
    }
}
