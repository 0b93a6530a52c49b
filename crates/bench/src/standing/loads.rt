// A bench that is loading.
ghost use Rattle.std.specs.Prelude.{◌≡◌, Ok};
ghost use Rattle.keys.specs.Spelling.{meant};
ghost use Rattle.reckoning.specs.Reckoning.{load, start};
ghost use Rattle.bench.specs.Benches.{both_empty, opened, bench_of, Called};

use super::super::admit::Seen;
use super::super::effect::{append_both, kept};
use super::super::ledger::Ledger;
use super::{Loading, Running};
use keys::{Denial, Key};
use lines::Line;

// Whether no key stands in either line.
fn both_empty<K: Key, H: Line<K>, R: Line<K>>(house: &H, rival: &R) -> bool
    ensures { result ≡ both_empty (H.Line.keys house.now) (R.Line.keys rival.now) }
{
    house.count() == 0 && rival.count() == 0
}

impl Loading {
    // Opens a bench on two empty lines.
    pub fn open<K: Key, H: Line<K>, R: Line<K>>(house: &H, rival: &R) -> Result<Loading, Denial>
        ensures { meant (λ (s : Loading). bench_of K.Key.own H.Line R.Line house.now rival.now s.ledger) result ≡ opened K.Key.own H.Line R.Line house.now rival.now }
    {
        if !both_empty(house, rival) {
            return Err(Denial::NotEmpty);
        }
        Ok(Loading {
            ledger: Ledger::zero(),
        })
    }

    // Appends a key on both sides, at no cost.
    pub fn load<K: Key, H: Line<K>, R: Line<K>>(
        &mut self,
        house: &mut H,
        rival: &mut R,
        key: K,
    ) -> Result<(), Denial>
        ensures { Called K.Key.own H.Line R.Line (load (K.Key.value key)) house.old rival.old self.old.ledger result house.new rival.new self.new.ledger }
    {
        let seen = Seen {
            ledger: self.ledger,
            house: &*house,
            rival: &*rival,
        };
        let _ = seen.admit_load(&key)?;
        append_both(house, rival, key)
    }

    // Ends the loading.
    pub fn start<K: Key, H: Line<K>, R: Line<K>>(self, house: &H, rival: &R) -> Running
        ensures { Called K.Key.own H.Line R.Line start house.now rival.now self.ledger (Ok tt) house.now rival.now result.ledger }
    {
        let ledger = kept(self.ledger, house, rival);
        Running { ledger }
    }

    // The numbers; loading costs nothing.
    pub fn ledger(&self) -> Ledger
        ensures { result ≡ self.now.ledger }
    {
        self.ledger
    }
}
