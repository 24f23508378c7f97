// Words of a line, which are parts of the script.
ghost use Rattle.std.specs.Prelude.{T, MatchOption};
ghost use Rattle.script.specs.Parts.{Without};
ghost use Rattle.script.specs.Words.{Writes, Numeral, IsWord, IsText, TwoWords};

use crate::parts::Part;

// The most bytes that a text has.
const LONGEST_TEXT: usize = 64;

// A word, with the part of the script that it is: a number, or any other text.
#[derive(Clone, Copy)]
pub enum Word<'s> {
    Number { value: u32, part: Part<'s> },
    Text(Part<'s>),
}

// The number that the bytes write in one to five digits, without a leading zero unless it is 0. Digit by digit: `parse`
// wants text first, and then tests each digit for more than these have.
fn number(bytes: &[u8]) -> Option<u32>
    ensures cases { MatchOption result (Numeral bytes.now → ⊥) (λ n. Writes bytes.now n) }
{
    if bytes.is_empty() || bytes.len() > 5 {
        return None;
    }
    if bytes[0] == b'0' && bytes.len() > 1 {
        return None;
    }
    let mut value: u32 = 0;
    for b in bytes {
        if !b.is_ascii_digit() {
            return None;
        }
        value = value * 10 + u32::from(*b - b'0');
    }
    Some(value)
}

// Are the bytes one to 64, and each printable?
pub fn is_text(bytes: &[u8]) -> bool
    ensures yes { T result → IsText bytes.now }
    ensures no { IsText bytes.now → T result }
{
    !bytes.is_empty()
        && bytes.len() <= LONGEST_TEXT
        && bytes.iter().all(|byte| (b' '..=b'~').contains(byte))
}

// What a part says.
impl<'s> From<Part<'s>> for Word<'s> {
    ghost from_gives = { λ part word. IsWord word part.bytes.now part.at };

    fn from(part: Part<'s>) -> Word<'s> {
        match number(part.bytes) {
            Some(value) => Word::Number { value, part },
            None => Word::Text(part),
        }
    }
}

// The first two words of a part, where it has two, and what follows a second space, where there is one.
pub fn two_words<'s>(part: Part<'s>) -> Option<(Word<'s>, Word<'s>, Option<Part<'s>>)>
    ensures cases { MatchOption result (Without 32 part.entry.bytes.now) (λ p. TwoWords part.entry.bytes.now part.entry.at p.0 p.1 p.2) }
{
    let (first, more) = part.cut(b' ');
    let (second, more) = more?.cut(b' ');
    Some((Word::from(first), Word::from(second), more))
}
