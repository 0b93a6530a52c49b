// The lines that the bench of a script is opened on.
use super::playing::play;
use chain::{Cell, Chain};
use keys::Key;
use row::Row;
use script::{Make, Plan};
use std::io;

// Makes the two lines, each over cells of its own, and plays the calls.
pub(crate) fn seat<K: Key>(
    rt: &HostRuntime,
    house: Plan,
    rival: Plan,
    filler: K,
    calls: &[&str],
) -> io::Result<()> {
    let heap = rt.alloc();
    let free = Cell {
        key: filler,
        next: 0,
    };
    match (house.make, rival.make) {
        (Make::Row, Make::Row) => {
            let mut house = vec![in heap; filler; house.cells]?;
            let mut rival = vec![in heap; filler; rival.cells]?;
            play(rt, Row::new(&mut house), Row::new(&mut rival), calls)
        }
        (Make::Row, Make::Chain) => {
            let mut house = vec![in heap; filler; house.cells]?;
            let mut rival = vec![in heap; free; rival.cells]?;
            play(rt, Row::new(&mut house), Chain::new(&mut rival), calls)
        }
        (Make::Chain, Make::Row) => {
            let mut house = vec![in heap; free; house.cells]?;
            let mut rival = vec![in heap; filler; rival.cells]?;
            play(rt, Chain::new(&mut house), Row::new(&mut rival), calls)
        }
        (Make::Chain, Make::Chain) => {
            let mut house = vec![in heap; free; house.cells]?;
            let mut rival = vec![in heap; free; rival.cells]?;
            play(rt, Chain::new(&mut house), Chain::new(&mut rival), calls)
        }
    }
}
