// How the bench of a script is opened.
ghost use Rattle.std.specs.Prelude.{◌≡◌, ◌≤◌, length, IfOk, Some, None, Ok, Err, MatchOption};
ghost use Rattle.std.specs.Option.{unwrap_or};
ghost use Rattle.script.specs.declared.entry.Kind.TheVariants.{Codes};
ghost use Rattle.script.specs.declared.outcome.Refusal.TheVariants.{Unfit};
ghost use Rattle.script.specs.Unsaid.{unsaid_line};

use super::entry::{Entry, Kind, Make, Plan, Term, read_entry};
use super::outcome::{Refusal, answer};
use std::io;

// A line of which nothing is said.
const UNSAID: Plan = Plan {
    make: Make::Row,
    cells: 256,
};

// What was said of the kind of key and of the two lines.
#[derive(Clone, Copy)]
pub struct Opening {
    keys: Option<Kind>,
    house: Option<Plan>,
    rival: Option<Plan>,
}

// Notes what is said, unless it was said before.
fn note<T: Copy>(said: &mut Option<T>, value: T) -> Result<(), Refusal>
    ensures { MatchOption said.old ((result ≡ Ok tt) × (said.new ≡ Some value)) (λ _. (result ≡ Err Unfit) × (said.new ≡ said.old)) }
{
    if said.is_some() {
        return Err(Refusal::Unfit);
    }
    *said = Some(value);
    Ok(())
}

impl Opening {
    // Nothing is said yet.
    pub fn unsaid() -> Opening
        ensures { (result.keys ≡ None) × (result.house ≡ None) × (result.rival ≡ None) }
    {
        Opening {
            keys: None,
            house: None,
            rival: None,
        }
    }

    // Notes what an opening line says.
    fn take(&mut self, term: Term) -> Result<(), Refusal> {
        match term {
            Term::Keys(kind) => note(&mut self.keys, kind),
            Term::House(plan) => note(&mut self.house, plan),
            Term::Rival(plan) => note(&mut self.rival, plan),
        }
    }

    // Takes the opening lines in front, and gives how many they are.
    pub fn take_lines(&mut self, rt: &HostRuntime, lines: &[&str]) -> io::Result<usize>
        ensures { IfOk result (λ n. n ≤ length lines.now) }
    {
        let heap = rt.alloc();
        for (taken, line) in lines.iter().enumerate() {
            let Some(Entry::Opening(term)) = read_entry(heap, line)? else {
                return Ok(taken);
            };
            let outcome = self.take(term);
            rt.println(answer(heap, line, outcome)?)?;
        }
        Ok(lines.len())
    }

    // The kind of key.
    pub fn kind(self) -> Kind
        ensures { result ≡ unwrap_or self.keys Codes }
    {
        self.keys.unwrap_or(Kind::Codes)
    }

    // The line of the house.
    pub fn house(self) -> Plan
        ensures { result ≡ unwrap_or self.house unsaid_line }
    {
        self.house.unwrap_or(UNSAID)
    }

    // The line of the rival.
    pub fn rival(self) -> Plan
        ensures { result ≡ unwrap_or self.rival unsaid_line }
    {
        self.rival.unwrap_or(UNSAID)
    }
}
