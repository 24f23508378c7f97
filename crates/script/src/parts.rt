// Parts of a script, which keep their place in it.
ghost use Rattle.std.specs.Prelude.{◌≡◌, ◌+◌, ◌^◌, ◌<◌, length};

// Bytes of a script, and how many bytes of it stand before them.
#[derive(Clone, Copy, Debug)]
pub struct Part<'s> {
    pub bytes: &'s [u8],
    pub at: usize,
    // A script is no longer than a `usize` counts, so the part's end is a place too.
    ghost inside: { at + length bytes.now < 2 ^ 64 },
}

// A whole script.
impl<'s> From<&'s [u8]> for Part<'s> {
    ghost from_gives = { λ script part. (part.bytes.now ≡ script.now) × (part.at ≡ 0) };

    fn from(script: &'s [u8]) -> Part<'s> {
        Part {
            bytes: script,
            at: 0,
        }
    }
}

impl<'s> Part<'s> {
    ghost use Rattle.std.specs.Prelude.{[]};
    ghost use Rattle.script.specs.Parts.{Cut};

    // The part in two at its first separator: what stands before it, and what follows it, where there is one.
    pub fn cut(self, separator: u8) -> (Part<'s>, Option<Part<'s>>)
        ensures cuts { Cut separator self.entry.bytes.now self.entry.at result.0 result.1 }
    {
        let Some(first) = self.bytes.iter().position(|byte| *byte == separator) else {
            return (self, None);
        };
        let front = Part {
            bytes: &self.bytes[..first],
            at: self.at,
        };
        let back = Part {
            bytes: &self.bytes[first + 1..],
            at: self.at + first + 1,
        };
        (front, Some(back))
    }

    // The empty part where it ends.
    pub fn end(self) -> Part<'s>
        ensures bytes { result.bytes.now ≡ [] }
        ensures at { result.at ≡ self.entry.at + length self.entry.bytes.now }
    {
        Part {
            bytes: &[],
            at: self.at + self.bytes.len(),
        }
    }
}
