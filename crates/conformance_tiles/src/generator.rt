// Random numbers, frames, labels and pictures.
// The same text stands in both test programs.
use crate::fault::Fault;
use geometry::frame::Frame;
use std::alloc::{AllocError, Global};

// A linear congruential generator.
#[derive(Clone, Copy)]
pub struct Generator {
    state: u64,
}

impl Generator {
    pub fn new(state: u64) -> Generator {
        Generator { state }
    }

    // The next number below a bound; 0 below 0.
    pub fn below(&mut self, bound: u32) -> u32 {
        self.state = self
            .state
            .wrapping_mul(6364136223846793005)
            .wrapping_add(1442695040888963407);
        let high = (self.state >> 33) as u32;
        high.checked_rem(bound).unwrap_or(0)
    }

    // A frame with sides 1 to 12 and levels 0 to 4.
    pub fn frame(&mut self) -> Result<Frame, Fault> {
        let x0 = self.below(20);
        let y0 = self.below(20);
        let x1 = x0.wrapping_add(1).wrapping_add(self.below(12));
        let y1 = y0.wrapping_add(1).wrapping_add(self.below(12));
        Ok(Frame::new(x0, y0, x1, y1, self.below(5))?)
    }

    // Labels from 1 to at most 3 values. Half of the tiles have them in runs: three points of four have the label of the point before.
    pub fn labels(&mut self, heap: Global, length: usize) -> Result<Vec<u16>, AllocError> {
        let kinds = self.below(3).wrapping_add(1);
        let in_runs = self.below(2) == 0;
        let mut last = 0u16;
        (0..length)
            .map(|_| {
                if !in_runs || self.below(4) == 0 {
                    last = u16::try_from(self.below(kinds)).unwrap_or(0);
                }
                last
            })
            .collect(heap)
    }

    // Any number.
    pub fn number(&mut self) -> i32 {
        let low = self.below(1 << 16);
        let high = self.below(1 << 16);
        ((high << 16) | low).wrapping_sub(1 << 31).cast_signed()
    }

    // Samples of eight bits, or, in one tile of four, any numbers.
    pub fn picture(&mut self, heap: Global, length: usize) -> Result<Vec<i32>, AllocError> {
        let shift = if self.below(4) == 0 { 0 } else { 24 };
        (0..length).map(|_| self.number() >> shift).collect(heap)
    }
}
