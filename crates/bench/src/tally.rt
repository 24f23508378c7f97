// What a run adds up, and the numbers that it draws. The peer in tools/peer does the same.
ghost use Rattle.std.specs.Prelude.{◌<◌};

use faults::Layer;
use model::Changed;
use tree::BLOCK_BYTES;

// What the calls of a run came to. Sums go round at their type's end.
#[derive(Clone, Copy, Debug, Default, PartialEq, Eq)]
pub struct Tally {
    pub calls: u64,
    // The numbers of the refusals.
    pub refused: u64,
    pub taken: u64,
    pub given: u64,
    // The figures, the first byte of each block that was read, the blocks that an allocator handed out.
    pub figures: u64,
}

impl Tally {
    fn refuse(&mut self, layer: Layer) {
        self.refused = self.refused.wrapping_add(u64::from(layer.number()));
    }

    pub fn figure(&mut self, figure: u32) {
        self.figures = self.figures.wrapping_add(u64::from(figure));
    }

    pub fn change(&mut self, answer: Result<Changed, Layer>) {
        self.calls = self.calls.wrapping_add(1);
        match answer {
            Ok(Changed { taken, given }) => {
                self.taken = self.taken.wrapping_add(u64::from(taken));
                self.given = self.given.wrapping_add(u64::from(given));
            }
            Err(layer) => self.refuse(layer),
        }
    }

    pub fn count(&mut self, answer: Result<u32, Layer>) {
        self.calls = self.calls.wrapping_add(1);
        match answer {
            Ok(figure) => self.figure(figure),
            Err(layer) => self.refuse(layer),
        }
    }

    pub fn read(&mut self, answer: Result<Option<&[u8; BLOCK_BYTES]>, Layer>) {
        self.count(answer.map(|block| block.map_or(0, |bytes| u32::from(bytes[0]))));
    }
}

// Numbers that look drawn by lot, the same in every run.
#[derive(Clone, Copy, Debug, PartialEq, Eq)]
pub struct Lots {
    state: u64,
}

impl Lots {
    pub fn new() -> Lots {
        Lots { state: 1 }
    }

    // A number below `end`.
    pub fn below(&mut self, end: u32) -> u32
        requires { 0 < end }
        ensures { result < end }
    {
        self.state = self
            .state
            .wrapping_mul(6_364_136_223_846_793_005)
            .wrapping_add(1_442_695_040_888_963_407);
        (self.state >> 33) as u32 % end
    }
}
