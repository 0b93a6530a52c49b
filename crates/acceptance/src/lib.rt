// What a page log and a plan log spell together, what is judged of it, and which plans are accepted: definitions and theorems.
#![tactic(auto)]

ghost use Rattle.acceptance.specs.Accepted.{AcceptsThem};

use keys::Key;

// The judge's definition gives a ledger exactly for the accepted plans, whatever the limits, for every kind of key. It only carries
// that theorem.
pub fn accepts_accepted_plans<K: Key>()
    ensures { AcceptsThem K.Key.equal K.Key.reading K.Key.LETTER }
{}
