// Runs a table of cases from standard input: to a line a page log and a plan log in hex, `-` for no bytes, and the best figure that
// is handed in, or `none`. For each case it prints on one line the text for its two logs, with `_` for a space and `;` for byte 10.
// In the stored table the first 240 cases and their texts come from an independent implementation.
#![tactic(auto)]

mod case;
mod one_line;

use case::{Case, read_case};
use one_line::OneLine;
use output::write_output;
use script::words::Fault;
use std::alloc::AllocError;
use std::io;

// Judges the two logs of a case, and prints the text on one line.
fn run_case(rt: &HostRuntime, case: &Case) -> io::Result<()> {
    let mut text = [0; 128];
    // Any text fits 128 bytes.
    let len = write_output(&case.page, &case.plan, case.best, &mut text).unwrap();
    rt.println(OneLine(&text[..len]))
}

// Runs the case that a line of the table has, and says so where it has none.
fn run_line(rt: &HostRuntime, line: &str) -> io::Result<()> {
    match read_case(rt.alloc(), line) {
        Ok(case) => run_case(rt, &case),
        Err(Fault::NoCall) => rt.println("no case"),
        Err(Fault::Memory) => Err(AllocError.into()),
    }
}

fn main(rt: HostRuntime) -> io::Result<()> {
    let table = io::read_to_string(rt.alloc(), rt.stdin())?;
    for line in table.as_str().split_terminator('\n') {
        run_line(&rt, line)?;
    }
    Ok(())
}
