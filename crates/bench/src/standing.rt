// The three standings of a bench: loading, then running, then closed. None goes back, and only `open` makes one. Each is a type of plain
// numbers with a `ledger` of its own, so that what may be called is seen in the type.
mod loads;
mod progress;
mod requests;
mod result;

use super::ledger::Ledger;

// A bench whose lines are being loaded. Start it before the first request.
#[derive(Drop)]
pub struct Loading {
    ledger: Ledger,
}

// A bench that takes requests and exchanges.
#[derive(Drop)]
pub struct Running {
    ledger: Ledger,
}

// A bench that takes no more calls. Open another one for more requests.
#[derive(Drop)]
pub struct Closed {
    ledger: Ledger,
}
