// Plays the calls of a script.
ghost use Rattle.std.specs.Prelude.{◌≡◌, []};

use super::game::Game;
use keys::Key;
use lines::Line;
use script::{Entry, Refusal, answer, read_entry};
use std::alloc::{AllocError, Global};
use std::io;

// Makes the call of a line, where it is one, and gives the game after it.
fn play_line<K: Key, H: Line<K> + Drop, R: Line<K> + Drop>(
    heap: Global,
    game: Game<K, H, R>,
    line: &str,
) -> Result<(Game<K, H, R>, Result<(), Refusal>), AllocError> {
    match read_entry(heap, line)? {
        Some(Entry::Calling(call)) => Ok(game.make(&call)),
        Some(Entry::Opening(_)) => Ok((game, Err(Refusal::Unfit))),
        None => Ok((game, Err(Refusal::NoCall))),
    }
}

// Opens a bench on two empty lines, plays the calls, and reports.
pub(crate) fn play<K: Key, H: Line<K> + Drop, R: Line<K> + Drop>(
    rt: &HostRuntime,
    house: H,
    rival: R,
    lines: &[&str],
) -> io::Result<()>
    requires { (H.Line.keys house ≡ []) × (R.Line.keys rival ≡ []) }
{
    let heap = rt.alloc();
    let mut game = Game::open(house, rival);
    rt.println("open ok")?;
    for line in lines {
        let (next, outcome) = play_line(heap, game, line)?;
        game = next;
        rt.println(answer(heap, line, outcome)?)?;
    }
    game.report(rt)
}
