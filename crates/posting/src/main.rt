//! Reads a nest of loops from standard input and prints, for each parameter point that is asked, the latest posting to
//! its cell. `docs/SOURCES.md` has the form of the text.
#![tactic(auto)]

use base::refusal::Refusal;
use listing::solve::WORK;
use listing::word::{first_word, number};
use nest::nest::Nest;
use postings::latest::{latest, solve};
use sheet::sheet::Sheet;
use solver::run::FUEL;
use source::limits::MAX_ROW_LENGTH;
use source::source::Source;
use std::alloc::{AllocError, AllocFailed};
use std::io::Read;
use store::node_store::NodeStore;
use tree::node::Node;
use tree::walk::Found;

// An error type of this program's own: another program stops for other things.
/// Why the lines are not taken to their end.
enum Stop {
    /// What a line says is refused.
    Refused(Refusal),
    /// There is no memory, or nothing can be printed.
    Failed(anyhow::Error),
}

impl From<Refusal> for Stop {
    fn from(refusal: Refusal) -> Stop {
        Stop::Refused(refusal)
    }
}

impl From<anyhow::Error> for Stop {
    fn from(error: anyhow::Error) -> Stop {
        Stop::Failed(error)
    }
}

impl From<AllocError> for Stop {
    fn from(error: AllocError) -> Stop {
        Stop::Failed(error.into())
    }
}

impl<T: Drop> From<AllocFailed<T>> for Stop {
    fn from(failed: AllocFailed<T>) -> Stop {
        AllocError::from(failed).into()
    }
}

/// A nest as it is read, how many of its loops have their bound, and the sheet that it is solved on: when it is first
/// asked, since one tree answers at every parameter point.
#[derive(Drop)]
struct Reading {
    nest: Nest,
    // bounds, counted: no buffer has this length
    bounded: usize,
    sheet: Sheet<NodeStore>,
    // what the nest's solve came to
    solved: Option<Result<(), Refusal>>,
}

/// The numbers of a line, of which no line has more than a row.
fn numbers_of(rt: &HostRuntime, line: &[u8]) -> Result<Vec<i64>, Stop> {
    let mut numbers = Vec::new(rt.alloc());
    let mut rest = line;
    for _ in 0..=MAX_ROW_LENGTH {
        let (word, after) = first_word(rest);
        if word.is_empty() {
            return Ok(numbers);
        }
        numbers.push(number(word).ok_or(Refusal::Listing)?)?;
        rest = after;
    }
    Err(Stop::Refused(Refusal::Listing))
}

impl Reading {
    /// A fresh nest from the first line: `loops` and its two counts.
    fn begin(rt: &HostRuntime, word: &[u8], numbers: &[i64]) -> Result<Reading, Stop> {
        match (word, numbers) {
            (b"loops", [n, p]) => {
                let count = |x: &i64| usize::try_from(*x).map_err(|_| Refusal::Counts);
                let nest = Nest::new(count(n)?, count(p)?)?;
                let table = Vec::from_slice(rt.alloc(), &[Node::None; WORK])?;
                Ok(Reading {
                    nest,
                    bounded: 0,
                    sheet: Sheet::new(NodeStore::new(table)),
                    solved: None,
                })
            }
            _ => Err(Stop::Refused(Refusal::Listing)),
        }
    }

    /// Gives the nest what a line says: the bound of the next loop, a cell condition or a context row. A tree of the
    /// nest before it no longer counts.
    fn add(&mut self, word: &[u8], numbers: &[i64]) -> Result<(), Refusal> {
        self.solved = None;
        match word {
            b"bound" => {
                self.nest.bound(self.bounded, numbers)?;
                self.bounded = self.bounded.saturating_add(1);
                Ok(())
            }
            b"cell" => self.nest.cell(numbers),
            b"context" => self.nest.confine(numbers),
            _ => Err(Refusal::Listing),
        }
    }

    /// Solves the nest, unless that was done.
    fn solve(&mut self) -> Result<(), Refusal> {
        if let Some(solved) = self.solved {
            return solved;
        }
        let mut work = [Node::None; WORK];
        let solved = solve(&mut self.sheet, &self.nest, &mut work, FUEL).map(|_| ());
        self.solved = Some(solved);
        solved
    }

    /// The latest posting at a parameter point: its counters are left in the place.
    fn ask(&mut self, point: &[i64], place: &mut [i64; 6]) -> Result<Found, Refusal> {
        self.solve()?;
        latest(&self.sheet, &self.nest, point, place)
    }

    /// Prints the latest posting at a parameter point.
    fn answer(&mut self, rt: &HostRuntime, point: &[i64]) -> anyhow::Result<()> {
        print!(rt; "at")?;
        print_numbers(rt, point)?;
        let mut place = [0; 6];
        match self.ask(point, &mut place) {
            Ok(Found::Point) => {
                print!(rt; ": latest")?;
                print_numbers(rt, &place[..self.nest.unknowns().min(6)])?;
                println!(rt; "")?;
            }
            Ok(Found::None) => println!(rt; ": no posting")?,
            Err(refusal) => println!(rt; ": refused {}", refusal.report().number)?,
        }
        Ok(())
    }

    /// Takes a further line: something for the nest, or a question.
    fn take(&mut self, rt: &HostRuntime, word: &[u8], numbers: &[i64]) -> Result<(), Stop> {
        match word {
            b"at" => self.answer(rt, numbers)?,
            _ => self.add(word, numbers)?,
        }
        Ok(())
    }
}

fn print_numbers(rt: &HostRuntime, numbers: &[i64]) -> anyhow::Result<()> {
    for x in numbers {
        print!(rt; " {x}")?;
    }
    Ok(())
}

/// Takes the lines up to the first that is refused; empty ones do not count.
fn take_lines(rt: &HostRuntime, text: &str) -> Result<(), Stop> {
    let mut reading = None;
    for line in text.lines() {
        let (word, rest) = first_word(line.as_bytes());
        if word.is_empty() {
            continue;
        }
        let numbers = numbers_of(rt, rest)?;
        match &mut reading {
            None => reading = Some(Reading::begin(rt, word, numbers.as_slice())?),
            Some(reading) => reading.take(rt, word, numbers.as_slice())?,
        }
    }
    match reading {
        Some(_) => Ok(()),
        None => Err(Stop::Refused(Refusal::Listing)),
    }
}

fn run(rt: &HostRuntime) -> anyhow::Result<()> {
    let mut text = Vec::new(rt.alloc());
    rt.stdin().read_to_end(&mut text)?;
    let taken = match str::from_utf8(text.as_slice()) {
        Ok(text) => take_lines(rt, text),
        // what is no text is no word that a line may have, and is refused where it stands
        Err(_) => {
            let text = String::from_utf8_lossy(rt.alloc(), text.as_slice())?;
            take_lines(rt, text.as_str())
        }
    };
    match taken {
        Ok(()) => Ok(()),
        Err(Stop::Refused(refusal)) => {
            println!(rt; "refused {}", refusal.report().number)?;
            Ok(())
        }
        Err(Stop::Failed(error)) => Err(error),
    }
}

fn main(rt: HostRuntime) -> anyhow::Result<()> {
    run(&rt)
}
