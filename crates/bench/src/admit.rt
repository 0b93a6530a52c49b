// The checks of each call, in their order, before anything is changed.
ghost use Rattle.std.specs.Prelude.{◌≡◌, ◌≤◌, cond, map, length, Ok, Err, ◌==◌};
ghost use Rattle.keys.specs.declared.denial.Denial.TheVariants.{Exhausted, BadGoal};
ghost use Rattle.reckoning.specs.Reckoning.{most, outside, lookup, add, remove};
ghost use Rattle.bench.specs.Admission.{admitted, failed, load_failed, found, places_of, next_places};

use super::ledger::{COUNTER_LIMIT, Ledger};
use keys::{Denial, Key};
use lines::{Line, is_place};

// Where a key stands, or is put, on the two sides.
#[derive(Clone, Copy)]
pub(crate) struct Places {
    pub(crate) house: usize,
    pub(crate) rival: usize,
}

// A bench as the checks of its calls see it: its numbers and its two lines.
#[derive_where(Clone, Copy)]
pub(crate) struct Seen<'a, H, R> {
    pub(crate) ledger: Ledger,
    pub(crate) house: &'a H,
    pub(crate) rival: &'a R,
}

// How many keys stand in a line.
fn count_of<K: Key, L: Line<K>>(line: &L) -> usize
    ensures value { result ≡ length (map K.Key.value (L.Line.keys line.now)) }
    ensures bound { result ≤ 256 }
{
    line.count()
}

// Denies one more where a counter is at its limit.
pub(crate) fn check_counter(counter: u32) -> Result<(), Denial>
    ensures { result ≡ cond (counter == most) (Err Exhausted) (Ok tt) }
{
    if counter == COUNTER_LIMIT {
        return Err(Denial::Exhausted);
    }
    Ok(())
}

// Denies a goal that is not from 1 to the place.
fn check_goal(goal: usize, place: usize) -> Result<(), Denial>
    ensures { result ≡ cond (outside goal place) (Err BadGoal) (Ok tt) }
{
    if !is_place(goal, place) {
        return Err(Denial::BadGoal);
    }
    Ok(())
}

impl<'a, H, R> Seen<'a, H, R> {
    // The places of a key that stands on both sides, or none where it stands on neither.
    fn find<K: Key>(&self, key: &K) -> Result<Option<Places>, Denial>
    where
        H: Line<K>,
        R: Line<K>,
        ensures { result ≡ found K.Key.own H.Line R.Line key.now self.now.house.now self.now.rival.now }
    {
        let house_count = count_of(self.house);
        let rival_count = count_of(self.rival);
        if house_count != rival_count {
            return Err(Denial::Unmatched);
        }
        match (self.house.place_of(key), self.rival.place_of(key)) {
            (Some(house), Some(rival)) => Ok(Some(Places { house, rival })),
            (None, None) => Ok(None),
            (Some(_), None) => Err(Denial::Unmatched),
            (None, Some(_)) => Err(Denial::Unmatched),
        }
    }

    // The checks of a removal: the counter, then that the key stands on both sides.
    pub(crate) fn admit_remove<K: Key>(&self, key: &K) -> Result<Places, Denial>
    where
        H: Line<K>,
        R: Line<K>,
        ensures { result ≡ admitted (failed K.Key.own H.Line R.Line (remove (K.Key.value key.now)) self.now.house.now self.now.rival.now self.now.ledger) (places_of K.Key.own H.Line R.Line key.now self.now.house.now self.now.rival.now) }
    {
        check_counter(self.ledger.requests)?;
        self.find(key)?.ok_or(Denial::Absent)
    }

    // The checks of a lookup: those of a removal, then the goal.
    pub(crate) fn admit_lookup<K: Key>(&self, key: &K, goal: usize) -> Result<Places, Denial>
    where
        H: Line<K>,
        R: Line<K>,
        ensures { result ≡ admitted (failed K.Key.own H.Line R.Line (lookup (K.Key.value key.now) goal) self.now.house.now self.now.rival.now self.now.ledger) (places_of K.Key.own H.Line R.Line key.now self.now.house.now self.now.rival.now) }
    {
        let places = self.admit_remove(key)?;
        check_goal(goal, places.rival)?;
        Ok(places)
    }

    // The checks of a load: that the key stands on neither side, then that neither is full.
    pub(crate) fn admit_load<K: Key>(&self, key: &K) -> Result<Places, Denial>
    where
        H: Line<K>,
        R: Line<K>,
        ensures { result ≡ admitted (load_failed K.Key.own H.Line R.Line key.now self.now.house.now self.now.rival.now) (next_places K.Key.own H.Line R.Line self.now.house.now self.now.rival.now) }
    {
        if self.find(key)?.is_some() {
            return Err(Denial::Present);
        }
        let house_count = count_of(self.house);
        let rival_count = count_of(self.rival);
        if self.house.is_full() || self.rival.is_full() {
            return Err(Denial::Full);
        }
        Ok(Places {
            house: house_count + 1,
            rival: rival_count + 1,
        })
    }

    // The checks of an addition: the counter, those of a load, then the goal.
    pub(crate) fn admit_add<K: Key>(&self, key: &K, goal: usize) -> Result<Places, Denial>
    where
        H: Line<K>,
        R: Line<K>,
        ensures { result ≡ admitted (failed K.Key.own H.Line R.Line (add (K.Key.value key.now) goal) self.now.house.now self.now.rival.now self.now.ledger) (next_places K.Key.own H.Line R.Line self.now.house.now self.now.rival.now) }
    {
        check_counter(self.ledger.requests)?;
        let places = self.admit_load(key)?;
        check_goal(goal, places.rival)?;
        Ok(places)
    }
}
