//! The temperatures of annealing, and how they fall in a round. They are in parts of 256 of a unit of cost.
use crate::board::Board;

// A temperature that depends on the game: `base` if a load and a store cost 1, and `slope` more for each unit that they cost more.
#[derive(Clone, Copy)]
struct Level {
    base: u8,
    slope: u8,
}

// What a round from a start begins at: a rise of the cost by 1 is accepted about once in 4 times. Of bases from 100 to 512, those from 120 to
// 160 found the cheapest plans, and up to 250 the difference is small. The slopes of all levels are plain guesses.
const HOT: Level = Level {
    base: 120,
    slope: 40,
};

// What the round from the best order begins at: a rise by 1 is accepted about once in 9 times, so that it stays near that order.
const WARM: Level = Level {
    base: 80,
    slope: 10,
};

// What each round ends at: a rise by 1 is accepted about once in 350 times.
const COLD: Level = Level { base: 30, slope: 2 };

// The most that a load and a store cost together: 16 each.
const MAX_COSTS: u16 = 32;

impl Level {
    fn temperature(self, board: &Board) -> u16 {
        let costs = u16::from(board.load_cost) + u16::from(board.store_cost);
        let further = costs.min(MAX_COSTS).saturating_sub(2);
        u16::from(self.base) + further * u16::from(self.slope)
    }
}

// The share of the work that is left is counted in parts of this.
const PARTS: u64 = 1024;

/// How the temperature falls in a round.
#[derive(Clone, Copy)]
pub struct Cooling {
    hot: u16,
    cold: u16,
}

impl Cooling {
    /// For a round that begins with one of the orders to start from.
    pub fn from_start(board: &Board) -> Cooling {
        Cooling {
            hot: HOT.temperature(board),
            cold: COLD.temperature(board),
        }
    }

    /// For a round that begins with the best order so far.
    pub fn from_best(board: &Board) -> Cooling {
        Cooling {
            hot: WARM.temperature(board),
            cold: COLD.temperature(board),
        }
    }

    /// The temperature if `left` is left of the work of a whole round. It falls as the square of what is left, so that it is longer cold
    /// than hot.
    pub fn temperature(self, left: u32, whole: u32) -> u16 {
        let share = (u64::from(left) * PARTS / u64::from(whole.max(1))).min(PARTS);
        let span = u64::from(self.hot.saturating_sub(self.cold));
        let above = span * (share * share) / (PARTS * PARTS);
        self.cold.saturating_add(above.min(65535) as u16)
    }
}
