// The report on a bench.
ghost use Rattle.std.specs.Prelude.{◌≡◌, ◌+◌, ◌*◌, ◌≤◌};
ghost use Rattle.reckoning.specs.Twice.{Twice};
ghost use Rattle.bench.specs.Benches.{sums_of};
ghost use Rattle.play.specs.Playing.{Playing};

use super::game::Game;
use bench::Ledger;
use keys::Key;
use lines::Line;
use script::order_text;
use std::io;

// The two sides of the twice bound.
#[derive(Clone, Copy)]
struct Bound {
    left: u32,
    right: u32,
}

impl Bound {
    fn of(ledger: Ledger) -> Bound
        requires { Twice (sums_of ledger) }
        ensures left { result.left ≡ ledger.house + ledger.free + ledger.requests }
        ensures right { result.right ≡ 2 * ledger.rival + ledger.paid }
        ensures bound { result.left ≤ result.right }
    {
        Bound {
            left: ledger.house + ledger.free + ledger.requests,
            right: 2 * ledger.rival + ledger.paid,
        }
    }
}

// The order of a side, as spellings in hex.
fn print_order<K: Key, L: Line<K>>(rt: &HostRuntime, side: &str, line: &L) -> io::Result<()> {
    let order = order_text(rt.alloc(), line)?;
    println!(rt; "{side}-order{order}")
}

// The numbers of a bench, the two sides of its bound, and the order of its lines.
fn print_bench<K: Key, H: Line<K>, R: Line<K>>(
    rt: &HostRuntime,
    ledger: Ledger,
    house: &H,
    rival: &R,
) -> io::Result<()>
    requires { Playing K.Key.own H.Line R.Line house.now rival.now ledger }
{
    let Ledger {
        requests,
        house: walked,
        rival: followed,
        paid,
        free,
    } = ledger;
    let Bound { left, right } = Bound::of(ledger);
    println!(rt;
        "requests {requests}\nhouse {walked}\nrival {followed}\npaid {paid}\nfree {free}\nbound {left} <= {right}"
    )?;
    print_order(rt, "house", house)?;
    print_order(rt, "rival", rival)
}

impl<K: Key, H: Line<K>, R: Line<K>> Game<K, H, R> {
    // Reports on the bench as it is.
    pub(crate) fn report(&self, rt: &HostRuntime) -> io::Result<()> {
        print_bench(rt, self.standing.ledger(), &self.house, &self.rival)
    }
}
