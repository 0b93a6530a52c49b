// Lines: ordered lists of different keys.
#![tactic(auto)]

ghost use Rattle.std.specs.Prelude.{◌≡◌, ℕ, ◌≤◌, Bool, List, map, length, ◌==◌};
ghost use Rattle.lines.specs.Orders.{allowed, key_at, is_place, taken_out, may_exchange, exchanged, may_bring_forward, brought_forward};
ghost use Rattle.lines.specs.Places.{place_of, appended, Different};

mod places;

use keys::{Denial, Key};
use places::may_bring_forward;
pub use places::{is_place, limit_for, may_exchange};

// A line means a list of keys in order and a limit, the most keys that it takes. Places count from 1.
pub trait Line<K: Key> {
    // The keys, from the front.
    ghost keys: { Self → List K };

    // The most keys that the line takes.
    ghost limit: { Self → ℕ };

    // How many keys stand in the line.
    fn count(&self) -> usize
        ensures { result ≡ length (keys self.now) };

    // The most keys that the line takes.
    fn limit(&self) -> usize
        ensures { result ≡ limit self.now };

    // The key at a place.
    fn key_at(&self, place: usize) -> Result<K, Denial>
        ensures { result ≡ key_at place (keys self.now) };

    // Where a key stands.
    fn place_of(&self, key: &K) -> Option<usize>
        ensures { result ≡ place_of K.Key.equal (K.Key.value key.now) (map K.Key.value (keys self.now)) };

    // Puts a key last.
    fn append(&mut self, key: K) -> Result<(), Denial>
        ensures limit { limit self.new ≡ limit self.old }
        ensures keys { appended K.Key.equal K.Key.value (limit self.old) key (keys self.old) ≡ (result, keys self.new) };

    // Takes the key at a place out and closes up behind it.
    fn take_out(&mut self, place: usize) -> Result<(), Denial>
        ensures limit { limit self.new ≡ limit self.old }
        ensures gives { result ≡ allowed (is_place place (length (keys self.old))) }
        ensures keys { keys self.new ≡ taken_out place (keys self.old) };

    // Lets the keys at a place and at the next one change places.
    fn exchange(&mut self, place: usize) -> Result<(), Denial>
        ensures limit { limit self.new ≡ limit self.old }
        ensures gives { result ≡ allowed (may_exchange place (length (keys self.old))) }
        ensures keys { keys self.new ≡ exchanged place (keys self.old) };

    // Whether the line takes no more keys.
    fn is_full(&self) -> bool
        ensures { result ≡ (length (keys self.now) == limit self.now) }
    {
        self.count() == self.limit()
    }

    // Brings the key at `from` forward to `to`, by exchanges; a line may have a quicker way.
    fn bring_forward(&mut self, from: usize, to: usize) -> Result<(), Denial>
        ensures limit { limit self.new ≡ limit self.old }
        ensures gives { result ≡ allowed (may_bring_forward from to (length (keys self.old))) }
        ensures keys { keys self.new ≡ brought_forward from to (keys self.old) }
    {
        if !may_bring_forward(from, to, self.count()) {
            return Err(Denial::OutOfRange);
        }
        // Each place goes to a call that may deny; nothing is indexed.
        for place in (to..from).rev() {
            self.exchange(place)?;
        }
        Ok(())
    }

    // In every line the keys differ and are no more than its limit, which is at most 256. What a line's own fields need for that is an
    // invariant of its type.
    ghost different: { (s : Self) → Different K.Key.equal (map K.Key.value (keys s)) };

    ghost within: { (s : Self) → length (keys s) ≤ limit s };

    ghost bounded: { (s : Self) → limit s ≤ 256 };
}
