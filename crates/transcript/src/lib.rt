// All that a script prints, in memory of the heap, for programs. The console itself allocates nothing.
// Proved: the bytes are what the console's definition says of the script, from its first line to its end.
#![tactic(auto)]

ghost use Rattle.std.specs.Prelude.{IfOk, replicate};
ghost use Rattle.script.specs.Consoles.{Prints, opened};

use records::dead::DeadRecord;
use records::ranges::FreeRange;
use records::rows::Row;
use script::session::{
    BITMAP_BYTES, DEAD_RECORDS, FREE_RANGES, MEMORY_BYTES, Memory, ROWS, SHORTEST_BUFFER, Session,
};
use std::alloc::{AllocError, Global};

// All that the script prints.
pub fn print(heap: Global, script: &[u8]) -> Result<Vec<u8>, AllocError>
    ensures prints { IfOk result (λ out. Prints (opened (replicate 16384 0) script.now) out.items) }
{
    let mut memory = [0u8; MEMORY_BYTES];
    let mut rows = [Row::UNUSED; ROWS];
    let mut dead = [DeadRecord::UNUSED; DEAD_RECORDS];
    let mut bits = [0u8; BITMAP_BYTES];
    let mut ranges = [FreeRange::UNUSED; FREE_RANGES];
    let lent = Memory {
        memory: &mut memory,
        rows: &mut rows,
        dead: &mut dead,
        bits: &mut bits,
        ranges: &mut ranges,
    };
    let mut session = Session::open(script, lent);
    let mut out = Vec::new(heap);
    let mut line = [0u8; SHORTEST_BUFFER];
    while let Ok(Some(len)) = session.print_next(&mut line) {
        out.extend_from_slice(&line[..len])?;
    }
    Ok(out)
}
