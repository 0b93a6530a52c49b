// Judges the plan log `plan.log` on the page log `page.log` in the current folder, and prints the report or the fault line.
#![tactic(auto)]

use output::write_output;
use std::fs::File;
use std::io;
use std::io::{ErrorKind, Read, Write};

// One byte more than a log may have: enough to know that it is too long.
const ENOUGH: u64 = 8193;

// The bytes of a log, or none where there is no such file.
fn read_log(rt: &HostRuntime, path: &str) -> io::Result<Vec<u8>> {
    let mut log = Vec::new(rt.alloc());
    match File::open(rt, path) {
        Ok(file) => {
            file.take(ENOUGH).read_to_end(&mut log)?;
        }
        Err(e) if e.kind() == ErrorKind::NotFound => {}
        Err(e) => return Err(e),
    }
    Ok(log)
}

fn main(rt: HostRuntime) -> io::Result<()> {
    let page = read_log(&rt, "page.log")?;
    let plan = read_log(&rt, "plan.log")?;
    let mut text = [0; 128];
    // The cheapest plan is not searched for yet, so no best cost is handed in. Any text fits 128 bytes.
    let len = write_output(&page, &plan, None, &mut text).unwrap();
    rt.stdout().write_all(&text[..len])
}
