//! Numbers that look random, the same for a seed.

/// A generator of numbers: SplitMix64 of Steele, Lea and Flood.
#[derive(Clone, Copy)]
pub struct Random {
    state: u64,
}

impl Random {
    /// Creates the generator of a seed.
    pub fn new(seed: u64) -> Random {
        Random { state: seed }
    }

    /// Returns the next number.
    pub fn next(&mut self) -> u64 {
        self.state = self.state.wrapping_add(0x9E37_79B9_7F4A_7C15);
        let once = (self.state ^ (self.state >> 30)).wrapping_mul(0xBF58_476D_1CE4_E5B9);
        let twice = (once ^ (once >> 27)).wrapping_mul(0x94D0_49BB_1331_11EB);
        twice ^ (twice >> 31)
    }

    /// Returns a number below `end`, or 0 if `end` is 0.
    pub fn below(&mut self, end: usize) -> usize {
        if end == 0 {
            return 0;
        }
        (self.next() % end as u64) as usize
    }

    /// Returns `true` in this many of 100 cases.
    pub fn chance(&mut self, percent: usize) -> bool {
        self.below(100) < percent
    }

    /// Returns one of these, or the other if there are none.
    pub fn pick<'a>(&mut self, those: &[&'a str], other: &'a str) -> &'a str {
        let at = self.below(those.len());
        match those.get(at) {
            Some(one) => one,
            None => other,
        }
    }
}
