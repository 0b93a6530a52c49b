// The numbers of a bench.
ghost use Rattle.std.specs.Prelude.{◌+◌, ◌*◌, ◌≤◌};
ghost use Rattle.reckoning.specs.Reckoning.{most};

// The most requests that a ledger counts, and the most paid exchanges.
pub(crate) const COUNTER_LIMIT: u32 = 1_000_000;

// Requests made, the cost of each side, and the rival's paid and free exchanges.
#[derive(Clone, Copy, Debug)]
pub struct Ledger {
    pub requests: u32,
    pub house: u32,
    pub rival: u32,
    pub paid: u32,
    pub free: u32,
    // Each request costs the rival at least one more than its free exchanges.
    ghost covered: { free + requests ≤ rival },
    // The counters stop at a million.
    ghost counted: { requests ≤ most },
    ghost bought: { paid ≤ most },
    // A request costs at most the largest limit of a line, so no sum of these numbers leaves 32 bits.
    ghost walked: { house ≤ 256 * requests },
    ghost followed: { rival ≤ 256 * requests },
}
