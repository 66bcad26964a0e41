// Choices that look random and are the same for each seed.

/// A linear congruential generator with Knuth's multiplier.
#[derive(Drop)]
pub struct Dice {
    state: u64,
}

impl Dice {
    /// The dice of a seed.
    pub fn new(seed: u64) -> Dice {
        Dice { state: seed }
    }

    /// A number below a small one.
    pub fn roll(&mut self, sides: u8) -> u8 {
        self.state = self
            .state
            .wrapping_mul(6_364_136_223_846_793_005)
            .wrapping_add(1_442_695_040_888_963_407);
        let high = (self.state >> 56) as u8;
        high.checked_rem(sides).unwrap_or(0)
    }

    /// The first of a few words, at least one of them.
    pub fn front<'w>(&mut self, words: &'w [&'static str]) -> &'w [&'static str] {
        let sides = u8::try_from(words.len()).unwrap_or(u8::MAX);
        let count = (self.roll(sides) as usize).saturating_add(1);
        &words[..count.min(words.len())]
    }

    /// One of a few words.
    pub fn pick(&mut self, words: &[&'static str]) -> &'static str {
        let sides = u8::try_from(words.len()).unwrap_or(u8::MAX);
        let index = self.roll(sides) as usize;
        words.get(index).copied().unwrap_or("")
    }
}
