// The cases of a table: what a line says.
use script::words::{Fault, read_hex, read_number};
use std::alloc::Global;

// Two logs, and the best figure that is handed in with them.
#[derive(Drop)]
pub struct Case {
    pub page: Vec<u8>,
    pub plan: Vec<u8>,
    pub best: Option<u32>,
}

// The bytes of a log in hex, `-` where it has none.
fn read_log(heap: Global, word: &str) -> Result<Vec<u8>, Fault> {
    if word == "-" {
        return Ok(Vec::new(heap));
    }
    read_hex(heap, word)
}

// A best figure in decimal, or `none`.
fn read_best(word: &str) -> Result<Option<u32>, Fault> {
    if word == "none" {
        return Ok(None);
    }
    let best = read_number(word).ok_or(Fault::NoCall)?;
    u32::try_from(best).map(Some).map_err(|_| Fault::NoCall)
}

// The case that a line has: the page, the plan and the best figure, separated by one space.
pub(crate) fn read_case(heap: Global, line: &str) -> Result<Case, Fault> {
    let words: Vec<&str> = line.split(' ').collect(heap)?;
    let [page, plan, best] = words.as_slice() else {
        return Err(Fault::NoCall);
    };
    Ok(Case {
        page: read_log(heap, page)?,
        plan: read_log(heap, plan)?,
        best: read_best(best)?,
    })
}
