// The standing of the bench that a script is played on.
ghost use Rattle.std.specs.Prelude.{◌≡◌};
ghost use Rattle.play.specs.Playing.{ledger_of};

use bench::{Closed, Ledger, Loading, Running};

#[derive(Drop)]
pub enum Standing {
    Loading(Loading),
    Running(Running),
    Closed(Closed),
}

impl Standing {
    // The numbers so far.
    pub(crate) fn ledger(&self) -> Ledger
        ensures { result ≡ ledger_of self.now }
    {
        match self {
            Standing::Loading(bench) => bench.ledger(),
            Standing::Running(bench) => bench.ledger(),
            Standing::Closed(bench) => bench.ledger(),
        }
    }
}
