// The lines of a script, in turn.
ghost use Rattle.std.specs.Prelude.{◌≡◌, ◌+◌, ◌≤◌, min, [], length};
ghost use Rattle.script.specs.declared.lines.TheConstants.{LONGEST_SCRIPT};

use crate::parts::Part;
use faults::ScriptCause;

// The most bytes that a script has.
pub const LONGEST_SCRIPT: usize = 32768;

#[derive(Drop)]
pub struct Lines<'s> {
    // What is still to be read.
    rest: Part<'s>,
    // How many lines were read.
    pub read: u32,
    // Each of them had a byte, of a script that is not too long: of one that is, none was read.
    ghost counted: { read + min (length rest.bytes.now) LONGEST_SCRIPT ≤ LONGEST_SCRIPT },
}

impl<'s> Lines<'s> {
    ghost use Rattle.script.specs.Sessions.{end_of, rest_of};

    pub fn new(script: &'s [u8]) -> Lines<'s>
        ensures rest { rest_of result ≡ script.now }
        ensures place { result.rest.at ≡ 0 }
        ensures read { result.read ≡ 0 }
    {
        Lines {
            rest: Part::from(script),
            read: 0,
        }
    }

    // Reads no more.
    pub fn stop(&mut self)
        ensures rest { rest_of self.new ≡ [] }
        ensures place { end_of self.new ≡ end_of self.old }
        ensures read { self.new.read ≡ self.old.read }
    {
        self.rest = self.rest.end();
    }
}

// The next line; an error once, and then no more, where more is left than a script may have.
impl<'s> Iterator for Lines<'s> {
    ghost use Rattle.std.specs.Iterator.{item_count};
    ghost use Rattle.script.specs.Sessions.{Reads, rest_of};

    type Item = Result<Part<'s>, ScriptCause>;

    ghost remaining = { item_count rest_of };

    ghost next_gives = { Reads };

    fn next(&mut self) -> Option<Result<Part<'s>, ScriptCause>> {
        if self.rest.bytes.is_empty() {
            return None;
        }
        if self.rest.bytes.len() > LONGEST_SCRIPT {
            self.stop();
            return Some(Err(ScriptCause::Size));
        }
        let (line, more) = self.rest.cut(b'\n');
        self.rest = more.unwrap_or(self.rest.end());
        self.read += 1;
        Some(Ok(line))
    }
}
