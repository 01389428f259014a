//! Numbers for inputs.

ghost use Rattle.std.specs.Prelude.{◌<◌};

/// A stream of numbers that a seed determines: Knuth's linear congruential generator of MMIX, with its bits mixed.
#[derive(Drop)]
pub struct Random {
    state: u64,
}

impl Random {
    /// The stream of a seed.
    pub fn new(seed: u32) -> Random {
        Random {
            state: u64::from(seed),
        }
    }

    /// The next number of 64 bits.
    pub fn number(&mut self) -> u64 {
        self.state = self
            .state
            .wrapping_mul(6364136223846793005)
            .wrapping_add(1442695040888963407);
        let mixed = (self.state ^ self.state >> 29).wrapping_mul(0xD6E8_FEB8_6659_FD93);
        mixed ^ mixed >> 32
    }

    /// The next number of 32 bits.
    pub fn number_of_32_bits(&mut self) -> u32 {
        (self.number() >> 32) as u32
    }

    /// A number below a limit.
    pub fn below(&mut self, limit: usize) -> usize
        requires { 0 < limit }
        ensures { result < limit }
    {
        self.number() as usize % limit
    }

    /// Returns `true` with probability 1 / `chances`.
    pub fn is_one_in(&mut self, chances: usize) -> bool
        requires { 0 < chances }
    {
        self.below(chances) == 0
    }

    /// An item of a list, or the other value if the list is empty.
    pub fn item<T: Copy>(&mut self, items: &[T], other: T) -> T {
        if items.is_empty() {
            return other;
        }
        match items.get(self.below(items.len())) {
            Some(item) => *item,
            None => other,
        }
    }
}
