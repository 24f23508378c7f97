// The lines that answers print.
ghost use Rattle.std.specs.Prelude.{◌≡◌, ◌+◌, ◌≤◌, length, Some, decimal};
ghost use Rattle.script.specs.Parts.{until};
ghost use Rattle.script.specs.Shown.{Put, Buffer, shown, shown_bytes, shown_change, shown_count, shown_fault};

use crate::parts::Part;
use faults::Fault;
use model::{Answer, Changed};
use tree::BLOCK_BYTES;

// Writes the answer's line at the start of the buffer, and says how long it is.
pub fn print(answer: Result<Answer, Fault>, out: &mut [u8]) -> usize
    requires { Buffer (length out.old) }
    ensures wrote { Put out.old out.new 0 result (shown answer) }
{
    let mut line = Line { out, end: 0 };
    match answer {
        Ok(Answer::Done(changed)) => line.push_change(changed),
        Ok(Answer::Bytes(Some(block))) => line.push_text(&block),
        Ok(Answer::Bytes(None)) => line.push(b"hole\n"),
        Ok(Answer::Count(count)) => line.push_count(count as u64),
        // No line asks for a bucket.
        Ok(Answer::Part { len, .. }) => line.push_count(len as u64),
        Err(fault) => line.push_fault(fault),
    }
    line.end
}

// What stands before the first zero byte, or all where there is none.
fn before_zero(bytes: &[u8]) -> &[u8]
    ensures within { length result.now ≤ length bytes.now }
    ensures value { result.now ≡ until 0 bytes.now }
{
    let (front, _) = Part::from(bytes).cut(0);
    front.bytes
}

// A line at the start of a lent buffer. It is not written by `write!`, whose contract says what was written where it is
// Ok, and does not promise that it is.
#[derive(Drop)]
struct Line<'o> {
    out: &'o mut [u8],
    end: usize,
}

impl Line<'_> {
    // Adds the bytes.
    #[tactic(auto, using(std::proofs::lemmas::Slice::overwrites))]
    fn push(&mut self, bytes: &[u8])
        requires { self.old.end + length bytes.now ≤ length self.old.out.now }
        ensures same_reference { self.new.out.ghost_name ≡ self.old.out.ghost_name }
        ensures wrote { Put self.old.out.now self.new.out.now self.old.end self.new.end bytes.now }
    {
        let end = self.end + bytes.len();
        self.out[self.end..end].copy_from_slice(bytes);
        self.end = end;
    }

    // Adds the number in decimal.
    fn push_number(&mut self, n: u64)
        requires { self.old.end + 20 ≤ length self.old.out.now }
        ensures same_reference { self.new.out.ghost_name ≡ self.old.out.ghost_name }
        ensures bound { self.new.end ≤ self.old.end + 20 }
        ensures wrote { Put self.old.out.now self.new.out.now self.old.end self.new.end (decimal n) }
    {
        let mut digits = itoa::Buffer::new();
        self.push(digits.format(n).as_bytes());
    }

    // Adds `ok TAKEN GIVEN`.
    fn push_change(&mut self, changed: Changed)
        requires { self.old.end + 80 ≤ length self.old.out.now }
        ensures same_reference { self.new.out.ghost_name ≡ self.old.out.ghost_name }
        ensures wrote { Put self.old.out.now self.new.out.now self.old.end self.new.end (shown_change changed) }
    {
        self.push(b"ok ");
        self.push_number(changed.taken as u64);
        self.push(b" ");
        self.push_number(changed.given as u64);
        self.push(b"\n");
    }

    // Adds `text` and the bytes of the block before its first zero byte.
    fn push_text(&mut self, block: &[u8; BLOCK_BYTES])
        requires { self.old.end + 80 ≤ length self.old.out.now }
        ensures same_reference { self.new.out.ghost_name ≡ self.old.out.ghost_name }
        ensures wrote { Put self.old.out.now self.new.out.now self.old.end self.new.end (shown_bytes (Some block.now)) }
    {
        self.push(b"text ");
        self.push(before_zero(block));
        self.push(b"\n");
    }

    // Adds `= COUNT`.
    fn push_count(&mut self, count: u64)
        requires { self.old.end + 80 ≤ length self.old.out.now }
        ensures same_reference { self.new.out.ghost_name ≡ self.old.out.ghost_name }
        ensures wrote { Put self.old.out.now self.new.out.now self.old.end self.new.end (shown_count count) }
    {
        self.push(b"= ");
        self.push_number(count);
        self.push(b"\n");
    }

    // Adds `no NUMBER LAYER LINE`.
    fn push_fault(&mut self, fault: Fault)
        requires { self.old.end + 80 ≤ length self.old.out.now }
        ensures same_reference { self.new.out.ghost_name ≡ self.old.out.ghost_name }
        ensures wrote { Put self.old.out.now self.new.out.now self.old.end self.new.end (shown_fault fault) }
    {
        self.push(b"no ");
        self.push_number(u64::from(fault.layer.number()));
        self.push(b" ");
        self.push(&[fault.layer.letter()]);
        self.push(b" ");
        self.push_number(fault.line as u64);
        self.push(b"\n");
    }
}
