// The script console as a program: a script from standard input, its answers to standard output.
#![tactic(auto)]

use std::io;
use std::io::{Read, Write};

fn main(rt: HostRuntime) -> io::Result<()> {
    let mut script = Vec::new(rt.alloc());
    rt.stdin().read_to_end(&mut script)?;
    let answers = transcript::print(rt.alloc(), &script)?;
    rt.stdout().write_all(&answers)
}
