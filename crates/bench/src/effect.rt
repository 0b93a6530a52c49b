// What the calls do to the two lines, once their checks have passed. The lines stay apart, as they are lent: a struct of two `&mut` would be
// made anew in each call, and each contract would have to say that it still holds the same ones.
ghost use Rattle.std.specs.Prelude.{◌≡◌, ◌≤◌, [], ◌∷◌, ◌++◌, length, None, Ok};
ghost use Rattle.lines.specs.Orders.{taken_out, brought_forward};
ghost use Rattle.reckoning.specs.Reckoning.{start, close};
ghost use Rattle.bench.specs.Benches.{limits_of, Called};
ghost use Rattle.bench.specs.Admission.{load_failed};

use super::admit::Places;
use super::ledger::Ledger;
use keys::{Denial, Key};
use lines::Line;

// Appends a key on both sides.
pub(crate) fn append_both<K: Key, H: Line<K>, R: Line<K>>(
    house: &mut H,
    rival: &mut R,
    key: K,
) -> Result<(), Denial>
    requires { load_failed K.Key.own H.Line R.Line key house.old rival.old ≡ None }
    ensures done { result ≡ Ok tt }
    ensures limits { limits_of K.Key.own H.Line R.Line house.new rival.new ≡ limits_of K.Key.own H.Line R.Line house.old rival.old }
    ensures house { H.Line.keys house.new ≡ H.Line.keys house.old ++ key ∷ [] }
    ensures rival { R.Line.keys rival.new ≡ R.Line.keys rival.old ++ key ∷ [] }
{
    house.append(key)?;
    rival.append(key)
}

// Brings the key at these places to the front of the house and to the goal of the rival.
pub(crate) fn bring_both<K: Key, H: Line<K>, R: Line<K>>(
    house: &mut H,
    rival: &mut R,
    places: Places,
    goal: usize,
) -> Result<(), Denial>
    requires house { (1 ≤ places.house) × (places.house ≤ length (H.Line.keys house.old)) }
    requires rival { (1 ≤ goal) × ((goal ≤ places.rival) × (places.rival ≤ length (R.Line.keys rival.old))) }
    ensures done { result ≡ Ok tt }
    ensures limits { limits_of K.Key.own H.Line R.Line house.new rival.new ≡ limits_of K.Key.own H.Line R.Line house.old rival.old }
    ensures house { H.Line.keys house.new ≡ brought_forward places.house 1 (H.Line.keys house.old) }
    ensures rival { R.Line.keys rival.new ≡ brought_forward places.rival goal (R.Line.keys rival.old) }
{
    house.bring_forward(places.house, 1)?;
    rival.bring_forward(places.rival, goal)
}

// Takes the key at these places out on both sides.
pub(crate) fn take_both<K: Key, H: Line<K>, R: Line<K>>(
    house: &mut H,
    rival: &mut R,
    places: Places,
) -> Result<(), Denial>
    requires house { (1 ≤ places.house) × (places.house ≤ length (H.Line.keys house.old)) }
    requires rival { (1 ≤ places.rival) × (places.rival ≤ length (R.Line.keys rival.old)) }
    ensures done { result ≡ Ok tt }
    ensures limits { limits_of K.Key.own H.Line R.Line house.new rival.new ≡ limits_of K.Key.own H.Line R.Line house.old rival.old }
    ensures house { H.Line.keys house.new ≡ taken_out places.house (H.Line.keys house.old) }
    ensures rival { R.Line.keys rival.new ≡ taken_out places.rival (R.Line.keys rival.old) }
{
    house.take_out(places.house)?;
    rival.take_out(places.rival)
}

// The ledger as it is: starting and closing keep it, and the lines.
pub(crate) fn kept<K: Key, H: Line<K>, R: Line<K>>(ledger: Ledger, house: &H, rival: &R) -> Ledger
    ensures starts { Called K.Key.own H.Line R.Line start house.now rival.now ledger (Ok tt) house.now rival.now result }
    ensures closes { Called K.Key.own H.Line R.Line close house.now rival.now ledger (Ok tt) house.now rival.now result }
{
    ledger
}
