//! Numbers that look random, the same in each run.

/// A linear congruential generator modulo 2^64, of whose states the high bits are drawn.
#[derive(Drop)]
pub struct Draws {
    state: u64,
}

impl Draws {
    /// The draws of a number.
    pub fn new(number: u64) -> Draws {
        Draws { state: number }
    }

    /// The next draw, below an end above 0.
    pub fn below(&mut self, end: u64) -> u64 {
        self.state = self
            .state
            .wrapping_mul(6364136223846793005)
            .wrapping_add(1442695040888963407);
        let high = self.state / (1 << 33);
        if end == 0 { 0 } else { high % end }
    }

    /// Whether the next draw, below an end above 0, is 0.
    pub fn is_zero(&mut self, end: u64) -> bool {
        self.below(end) == 0
    }
}
