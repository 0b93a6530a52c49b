// Plays a script on a bench.
#![tactic(auto)]

mod game;
mod playing;
mod seats;
mod show;
mod standing;

use keys::{Code, Name};
use script::{Kind, Opening};
use seats::seat;
use std::io;

fn main(rt: HostRuntime) -> io::Result<()> {
    let heap = rt.alloc();
    let script = io::read_to_string(heap, rt.stdin())?;
    let lines: Vec<&str> = script.as_str().split_terminator('\n').collect(heap)?;
    let mut opening = Opening::unsaid();
    let taken = opening.take_lines(&rt, &lines)?;
    let calls = &lines[taken..];
    let house = opening.house();
    let rival = opening.rival();
    match opening.kind() {
        Kind::Codes => seat(&rt, house, rival, Code::default(), calls),
        Kind::Names => seat(&rt, house, rival, Name::default(), calls),
    }
}
