// Choices that look random and are the same for each seed.

/// A linear congruential generator with Knuth's multiplier.
#[derive(Drop)]
pub struct Dice {
    state: u64,
}

impl Dice {
    /// The dice of a seed.
    pub fn new(seed: u64) -> Dice {
        Dice { state: seed }
    }

    /// A number below this one, or 0.
    pub fn roll(&mut self, sides: u32) -> u32 {
        self.state = self
            .state
            .wrapping_mul(6_364_136_223_846_793_005)
            .wrapping_add(1_442_695_040_888_963_407);
        let high = (self.state >> 32) as u32;
        high.checked_rem(sides).unwrap_or(0)
    }

    /// A place in a list of this length, or 0.
    pub fn place(&mut self, length: usize) -> usize {
        self.roll(u32::try_from(length).unwrap_or(u32::MAX)) as usize
    }

    /// Any byte, more often one that a frame makes something of.
    pub fn byte(&mut self) -> u8 {
        match self.roll(10) {
            0..=3 => 0,
            4 => 1,
            5 => b'/',
            6 => 0x80,
            7 => 0xff,
            _ => (self.roll(256) % 256) as u8,
        }
    }
}
