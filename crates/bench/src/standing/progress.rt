// What a running bench has counted.
ghost use Rattle.std.specs.Prelude.{◌≡◌};

use super::super::ledger::Ledger;
use super::Running;

impl Running {
    // The numbers so far.
    pub fn ledger(&self) -> Ledger
        ensures { result ≡ self.now.ledger }
    {
        self.ledger
    }
}
