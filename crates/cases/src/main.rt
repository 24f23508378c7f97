// Runs each script that an argument names, and prints its name and its answers.
#![tactic(auto)]

use std::fs::Files;
use std::io::Write;
use std::{env, fs, io};

fn run_case(rt: &(impl Files + Print + AllocGlobal), name: &str) -> io::Result<()> {
    let script = fs::read(rt, name)?;
    let answers = transcript::print(rt.alloc(), &script)?;
    println!(rt; "# {name}")?;
    io::writer(rt).write_all(&answers)
}

fn main(rt: HostRuntime) -> io::Result<()> {
    for name in env::args(&rt)?.skip(1) {
        run_case(&rt, name.as_str())?;
    }
    Ok(())
}
