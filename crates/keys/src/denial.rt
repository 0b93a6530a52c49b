// Why a call was refused.
ghost use Rattle.std.specs.Prelude.{◌≡◌};
ghost use Rattle.keys.specs.Denials.{number_of};

// Each denial has one number, which logs, texts and other programs use.
#[derive(Clone, Copy, PartialEq, Eq, Debug)]
pub enum Denial {
    // A bench is opened on lines of which one holds a key.
    NotEmpty = 1,
    // The two lines' counts differ, or the key stands in just one of them.
    Unmatched = 2,
    // The place is outside the call's range.
    OutOfRange = 3,
    // The key to append stands there already.
    Present = 4,
    // A line to append to has as many keys as its limit.
    Full = 5,
    // The key stands in neither line.
    Absent = 6,
    // The counter of requests, or of paid exchanges, is at its limit.
    Exhausted = 7,
    // The goal is not from 1 to the rival's place.
    BadGoal = 8,
    // A log's version byte is missing or unknown.
    Version = 9,
    // A page log's kind of key is missing or another.
    Letter = 10,
    // Fewer bytes remain than a length, or its record, needs.
    CutOff = 11,
    // A length, a letter or a spelling breaks the layout.
    Layout = 12,
    // A plan misfits its page.
    Misfit = 13,
    // A page is not small enough for a search of all plans.
    NotSmall = 14,
    // A buffer is too short; no buffer is written.
    NoRoom = 15,
    // A log is longer than the program takes.
    TooLong = 16,
}

impl Denial {
    // The denial's number.
    pub fn number(self) -> u8
        ensures { result ≡ number_of self }
    {
        self as u8
    }
}
