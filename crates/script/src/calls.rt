// The calls that lines write.
ghost use Rattle.std.specs.Prelude.{◌≡◌, ℕ, ◌⊎◌, ◌∷◌, Some, None, decimal, MatchResult};
ghost use Rattle.faults.specs.declared.ScriptCause.TheVariants.{Digits, Text};
ghost use Rattle.script.specs.Lines.{ReadsAs, ReadsCall, wanted, two_numbers};
ghost use Rattle.script.specs.Words.{IsText, value_of};

use crate::parts::Part;
use crate::words::{Word, is_text, two_words};
use faults::ScriptCause;
use model::Call;

// The call that a line writes: its letter, one space, and the words that the letter wants.
pub fn read_call<'s>(line: Part<'s>) -> Result<Call<'s>, ScriptCause>
    ensures cases { ReadsCall line.entry.bytes.now result }
{
    let [letter, b' ', rest @ ..] = line.bytes else {
        return Err(ScriptCause::Letter);
    };
    let rest = Part {
        bytes: rest,
        at: line.at + 2,
    };
    match char::from(*letter) {
        'c' => read_numbers(rest).map(|(number, height)| Call::Create { number, height }),
        'w' => read_write(rest),
        'x' => read_numbers(rest).map(|(number, position)| Call::Discard { number, position }),
        'p' => read_numbers(rest).map(|(number, position)| Call::Read { number, position }),
        's' => read_numbers(rest).map(|(number, snapshot)| Call::Snapshot { number, snapshot }),
        'k' => read_numbers(rest).map(|(snapshot, number)| Call::Clone { snapshot, number }),
        'd' => read_number(rest).map(|number| Call::Destroy { number }),
        'u' => read_number(rest).map(|number| Call::Unique { number }),
        'a' => read_number(rest).map(|number| Call::Used { number }),
        _ => Err(ScriptCause::Letter),
    }
}

// The rest of a line of any letter that wants just one number.
fn read_number(rest: Part<'_>) -> Result<u32, ScriptCause>
    ensures cases { (b : ℕ) → wanted b ≡ Some 2 → ReadsAs (λ n. b ∷ 32 ∷ decimal n) (b ∷ 32 ∷ rest.entry.bytes.now) result }
{
    let (word, more) = rest.cut(b' ');
    match (more, Word::from(word)) {
        (Some(_), _) => Err(ScriptCause::WordCount),
        (None, Word::Number { value, .. }) => Ok(value),
        (None, Word::Text(_)) => Err(ScriptCause::Digits),
    }
}

// The rest of a line of any letter that wants just two numbers.
fn read_numbers(rest: Part<'_>) -> Result<(u32, u32), ScriptCause>
    ensures cases { (b : ℕ) → wanted b ≡ Some 3 → ReadsAs (λ p. b ∷ 32 ∷ two_numbers p.0 p.1) (b ∷ 32 ∷ rest.entry.bytes.now) result }
{
    let (first, second, more) = two_words(rest).ok_or(ScriptCause::WordCount)?;
    match more {
        None => both_numbers(first, second),
        Some(_) => Err(ScriptCause::WordCount),
    }
}

// The rest of a line that writes a text: the dataset's number, the position and the text.
fn read_write<'s>(rest: Part<'s>) -> Result<Call<'s>, ScriptCause>
    ensures cases { ReadsCall (119 ∷ 32 ∷ rest.entry.bytes.now) result }
{
    let (first, second, more) = two_words(rest).ok_or(ScriptCause::WordCount)?;
    let text = more.ok_or(ScriptCause::WordCount)?;
    let (number, position) = both_numbers(first, second)?;
    let text = read_text(text.bytes)?;
    Ok(Call::Write {
        number,
        position,
        text,
    })
}

// The numbers that two words are.
fn both_numbers(first: Word<'_>, second: Word<'_>) -> Result<(u32, u32), ScriptCause>
    ensures cases { MatchResult result (λ p. (value_of first.entry ≡ Some p.0) × (value_of second.entry ≡ Some p.1)) (λ c. (c ≡ Digits) × ((value_of first.entry ≡ None) ⊎ (value_of second.entry ≡ None))) }
{
    match (first, second) {
        (Word::Number { value: n, .. }, Word::Number { value: m, .. }) => Ok((n, m)),
        _ => Err(ScriptCause::Digits),
    }
}

// The text that the bytes are.
fn read_text<'s>(bytes: &'s [u8]) -> Result<&'s [u8], ScriptCause>
    ensures cases { MatchResult result (λ t. IsText bytes.now × (t.now ≡ bytes.now)) (λ c. (c ≡ Text) × (IsText bytes.now → ⊥)) }
{
    if is_text(bytes) {
        Ok(bytes)
    } else {
        Err(ScriptCause::Text)
    }
}
