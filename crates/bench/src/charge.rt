// What requests and exchanges add to a ledger.
ghost use Rattle.std.specs.Prelude.{◌≡◌, ◌<◌, ◌≤◌};
ghost use Rattle.reckoning.specs.Reckoning.{most, zeros, served, paid_for};
ghost use Rattle.bench.specs.Benches.{sums_of};

use super::admit::Places;
use super::ledger::Ledger;

impl Ledger {
    // A ledger of zeros.
    pub(crate) fn zero() -> Ledger
        ensures { sums_of result ≡ zeros }
    {
        Ledger {
            requests: 0,
            house: 0,
            rival: 0,
            paid: 0,
            free: 0,
        }
    }

    // One request more: each side pays its place, and the rival makes `moved` free exchanges.
    pub(crate) fn served(mut self, places: Places, moved: usize) -> Ledger
        requires counted { self.requests < most }
        requires house { places.house ≤ 256 }
        requires rival { places.rival ≤ 256 }
        requires moved { moved < places.rival }
        ensures { sums_of result ≡ served places.house places.rival moved (sums_of self) }
    {
        // No place is above 256, so `as` loses nothing.
        self.requests += 1;
        self.house += places.house as u32;
        self.rival += places.rival as u32;
        self.free += moved as u32;
        self
    }

    // One paid exchange more.
    pub(crate) fn exchanged(mut self) -> Ledger
        requires { self.paid < most }
        ensures { sums_of result ≡ paid_for (sums_of self) }
    {
        self.paid += 1;
        self
    }
}
