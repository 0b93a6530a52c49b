// A bench that is running.
ghost use Rattle.std.specs.Prelude.{◌≡◌, Ok};
ghost use Rattle.reckoning.specs.Reckoning.{lookup, add, remove, exchange, close};
ghost use Rattle.bench.specs.Benches.{Called};

use super::super::admit::{Seen, check_counter};
use super::super::effect::{append_both, bring_both, kept, take_both};
use super::super::ledger::Ledger;
use super::{Closed, Running};
use keys::{Denial, Key};
use lines::Line;

impl Running {
    // A lookup: each side pays the key's place; then the house's key goes to the front and the rival's to the goal.
    pub fn lookup<K: Key, H: Line<K>, R: Line<K>>(
        &mut self,
        house: &mut H,
        rival: &mut R,
        key: K,
        goal: usize,
    ) -> Result<(), Denial>
        ensures { Called K.Key.own H.Line R.Line (lookup (K.Key.value key) goal) house.old rival.old self.old.ledger result house.new rival.new self.new.ledger }
    {
        let seen = Seen {
            ledger: self.ledger,
            house: &*house,
            rival: &*rival,
        };
        let places = seen.admit_lookup(&key, goal)?;
        bring_both(house, rival, places, goal)?;
        self.ledger = self.ledger.served(places, places.rival - goal);
        Ok(())
    }

    // An addition: each side pays one more than its count; the key is appended, then moved as after a lookup.
    pub fn add<K: Key, H: Line<K>, R: Line<K>>(
        &mut self,
        house: &mut H,
        rival: &mut R,
        key: K,
        goal: usize,
    ) -> Result<(), Denial>
        ensures { Called K.Key.own H.Line R.Line (add (K.Key.value key) goal) house.old rival.old self.old.ledger result house.new rival.new self.new.ledger }
    {
        let seen = Seen {
            ledger: self.ledger,
            house: &*house,
            rival: &*rival,
        };
        let places = seen.admit_add(&key, goal)?;
        append_both(house, rival, key)?;
        bring_both(house, rival, places, goal)?;
        self.ledger = self.ledger.served(places, places.rival - goal);
        Ok(())
    }

    // A removal: each side pays the key's place, and the key is taken out.
    pub fn remove<K: Key, H: Line<K>, R: Line<K>>(
        &mut self,
        house: &mut H,
        rival: &mut R,
        key: K,
    ) -> Result<(), Denial>
        ensures { Called K.Key.own H.Line R.Line (remove (K.Key.value key)) house.old rival.old self.old.ledger result house.new rival.new self.new.ledger }
    {
        let seen = Seen {
            ledger: self.ledger,
            house: &*house,
            rival: &*rival,
        };
        let places = seen.admit_remove(&key)?;
        take_both(house, rival, places)?;
        self.ledger = self.ledger.served(places, 0);
        Ok(())
    }

    // A paid exchange of the rival's keys at a place and at the next one. The house is not touched.
    pub fn exchange<K: Key, H: Line<K>, R: Line<K>>(
        &mut self,
        house: &H,
        rival: &mut R,
        place: usize,
    ) -> Result<(), Denial>
        ensures { Called K.Key.own H.Line R.Line (exchange place) house.now rival.old self.old.ledger result house.now rival.new self.new.ledger }
    {
        check_counter(self.ledger.paid)?;
        rival.exchange(place)?;
        self.ledger = self.ledger.exchanged();
        Ok(())
    }

    // Ends the requests.
    pub fn close<K: Key, H: Line<K>, R: Line<K>>(self, house: &H, rival: &R) -> Closed
        ensures { Called K.Key.own H.Line R.Line close house.now rival.now self.ledger (Ok tt) house.now rival.now result.ledger }
    {
        let ledger = kept(self.ledger, house, rival);
        Closed { ledger }
    }
}
