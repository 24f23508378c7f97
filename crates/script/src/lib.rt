// The script console: reads a script line by line, has the pool do what each line says, and writes the line that
// answers it to a buffer of the caller's.
// Proved, for any script of any bytes: what stands in the buffer after each call is the line that the rules say, byte
// for byte, and the rest of the buffer is as it was; a buffer of fewer than 80 bytes is refused and nothing changes.
// By the definitions alone, whatever the allocator takes: the worked script is answered as it is told.
#![tactic(auto)]

mod answers;
mod calls;
mod lines;
mod parts;
pub mod session;
mod words;
pub mod worked;
