// A bench that is closed.
ghost use Rattle.std.specs.Prelude.{◌≡◌};

use super::super::ledger::Ledger;
use super::Closed;

impl Closed {
    // The numbers of the whole run.
    pub fn ledger(&self) -> Ledger
        ensures { result ≡ self.now.ledger }
    {
        self.ledger
    }
}
