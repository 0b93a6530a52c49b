// Faults: where in two logs a judgement stopped, and why.
use keys::Denial;

// One of the two logs that are judged together.
#[derive(Clone, Copy, PartialEq, Eq, Debug)]
pub enum Log {
    Page,
    Plan,
}

// A denial, the log that it is said of, and the number of the record there. Records count from 1, and 0 stands for the log as a whole.
#[derive(Clone, Copy, PartialEq, Eq, Debug)]
pub struct Fault {
    pub denial: Denial,
    pub log: Log,
    pub at: usize,
}
