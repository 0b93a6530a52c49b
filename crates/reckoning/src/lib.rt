// The reckoning of a bench, as definitions, and the theorems on it. Its functions only carry these theorems.
#![tactic(auto)]

ghost use Rattle.reckoning.specs.Floor.{FloorLaw};
ghost use Rattle.reckoning.specs.Twice.{TwiceLaw};
ghost use Rattle.reckoning.specs.Runs.{WorkedRuns};

use keys::Key;

// The definitions give the worked runs.
pub fn worked_runs()
    ensures { WorkedRuns }
{}

// Whatever was called, house cost, free exchanges and requests are at most twice the rival cost plus the paid exchanges, for every
// kind of key.
pub fn twice_bound<K: Key>()
    ensures { TwiceLaw K.Key.Value K.Key.equal }
{}

// No rival that is granted the same loads and requests costs less than half of the house cost and the requests together, rounded up:
// whatever its goals, its exchanges, its denied calls and the limits of its lines, for every kind of key.
pub fn floor_bound<K: Key>()
    ensures { FloorLaw K.Key.Value K.Key.equal }
{}
