// The bench that a script is played on, with its two lines.
ghost use Rattle.std.specs.Prelude.{◌≡◌, []};

use super::standing::Standing;
use bench::Loading;
use keys::Key;
use lines::Line;
use script::{Call, Refusal};
use std::marker::{Model, PhantomData};

#[derive(Drop)]
pub struct Game<K: Key, H: Line<K>, R: Line<K>> {
    pub(crate) standing: Standing,
    pub(crate) house: H,
    pub(crate) rival: R,
    keys: PhantomData<K>,
}

// A game is seen as its numbers. The bench is as the calls made so far leave it, and it keeps the twice bound.
impl<K: Key, H: Line<K>, R: Line<K>> Model for Game<K, H, R> {
    ghost use Rattle.bench.specs.declared.ledger.Ledger.{Ledger};
    ghost use Rattle.play.specs.Playing.{Playing, ledger_of};

    ghost Value = { Ledger };

    ghost view = { λ game. ledger_of game.standing };

    ghost invariant = { λ game. Playing K.Key H.Line R.Line game.house game.rival (ledger_of game.standing) };
}

impl<K: Key, H: Line<K>, R: Line<K>> Game<K, H, R> {
    // Opens a bench on two empty lines.
    pub(crate) fn open(house: H, rival: R) -> Self
        requires { (H.Line.keys house ≡ []) × (R.Line.keys rival ≡ []) }
    {
        let bench = Loading::open(&house, &rival).unwrap();
        Game {
            standing: Standing::Loading(bench),
            house,
            rival,
            keys: PhantomData,
        }
    }

    // Makes a call that leaves the bench loading or running, if it fits.
    fn serve(&mut self, call: &Call) -> Result<(), Refusal> {
        match (&mut self.standing, call) {
            (Standing::Loading(bench), Call::Load(key)) => {
                bench.load(&mut self.house, &mut self.rival, K::read(key)?)?
            }
            (Standing::Running(bench), Call::Lookup(key, goal)) => {
                bench.lookup(&mut self.house, &mut self.rival, K::read(key)?, *goal)?
            }
            (Standing::Running(bench), Call::Add(key, goal)) => {
                bench.add(&mut self.house, &mut self.rival, K::read(key)?, *goal)?
            }
            (Standing::Running(bench), Call::Remove(key)) => {
                bench.remove(&mut self.house, &mut self.rival, K::read(key)?)?
            }
            (Standing::Running(bench), Call::Exchange(place)) => {
                bench.exchange(&self.house, &mut self.rival, *place)?
            }
            _ => return Err(Refusal::Unfit),
        }
        Ok(())
    }

    // Makes a call, if it fits, and gives the game after it.
    pub(crate) fn make(mut self, call: &Call) -> (Self, Result<(), Refusal>) {
        match (self.standing, call) {
            (Standing::Loading(bench), Call::Start) => {
                let bench = bench.start(&self.house, &self.rival);
                self.standing = Standing::Running(bench);
                (self, Ok(()))
            }
            (Standing::Running(bench), Call::Close) => {
                let bench = bench.close(&self.house, &self.rival);
                self.standing = Standing::Closed(bench);
                (self, Ok(()))
            }
            (standing, call) => {
                self.standing = standing;
                let outcome = self.serve(call);
                (self, outcome)
            }
        }
    }
}
