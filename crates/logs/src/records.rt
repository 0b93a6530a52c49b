// Whole logs.
ghost use Rattle.logs.specs.Whole.{OneByOne};

use keys::Key;

// What a whole log spells is what its reader gives, record by record, up to the end or the first fault. It only carries that theorem.
pub fn one_by_one<K: Key>()
    ensures { OneByOne K.Key.reading }
{}
