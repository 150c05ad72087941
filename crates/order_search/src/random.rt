//! Random numbers.

/// The state that each search begins with. Any number but 0 will do; this one has about as many ones as zeros.
const SEED: u64 = 0x2545_f491_4f6c_dd1d;

/// A generator of 64-bit numbers by three shifts (Marsaglia's xorshift64). It always begins with the same state, so two searches of a game are
/// the same.
#[derive(Drop)]
pub struct Random {
    state: u64,
}

impl Random {
    /// The generator at its first state.
    pub fn new() -> Random {
        Random { state: SEED }
    }

    /// The next 64 bits.
    pub fn next(&mut self) -> u64 {
        self.state ^= self.state << 13;
        self.state ^= self.state >> 7;
        self.state ^= self.state << 17;
        self.state
    }

    /// A number below `count`, or 0 if that is 0.
    pub fn below(&mut self, count: u16) -> u16 {
        ((self.next() >> 32) * u64::from(count) >> 32) as u16
    }

    /// True as often as false.
    pub fn flip_coin(&mut self) -> bool {
        self.below(2) == 0
    }

    /// A number of places from 1 to 63. It is 1, 2 to 3, 4 to 7, 8 to 15, 16 to 31 and 32 to 63 equally often.
    pub fn distance(&mut self) -> u16 {
        let least = 1 << self.below(6).min(5);
        least + self.below(least).min(31)
    }

    /// How much a cost may rise at a temperature, which is in parts of 256 of a unit of cost. Before it is rounded down it is at least the
    /// temperature every second time, at least twice the temperature every fourth time, and so on: about an exponential distribution.
    pub fn allowance(&mut self, temperature: u16) -> u32 {
        let word = self.next();
        let rise = (word >> 8).trailing_zeros() * 256 + (word & 255) as u32;
        (u64::from(temperature) * u64::from(rise) >> 16) as u32
    }
}
