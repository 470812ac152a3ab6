//! The line of an answer.
use listing::show::RefusalText;
use sheet::call::Answer;
use std::fmt;
use tree::walk::Found;

/// The numbers of a point, a space before each, and the end of the line.
#[derive(Drop)]
struct Numbers<'a>(&'a [i64]);

impl fmt::Display for Numbers<'_> {
    fn fmt<W: fmt::Write>(&self, f: &mut fmt::Formatter<W>) -> fmt::Result {
        for x in self.0 {
            write!(f, " {x}")?;
        }
        writeln!(f, "")
    }
}

/// An answer as text, where the system that stands has so many unknowns.
#[derive(Drop)]
pub(crate) struct AnswerLine<'a> {
    pub(crate) answer: &'a Answer,
    pub(crate) unknowns: usize,
}

impl fmt::Display for AnswerLine<'_> {
    fn fmt<W: fmt::Write>(&self, f: &mut fmt::Formatter<W>) -> fmt::Result {
        match self.answer {
            Answer::Solved(Ok(solved)) => {
                writeln!(f, "steps {} nodes {}", solved.steps, solved.nodes)
            }
            Answer::Found { said, place } => match said {
                Ok(Found::Point) => write!(f, "at{}", Numbers(&place[..self.unknowns.min(6)])),
                Ok(Found::None) => writeln!(f, "none"),
                Err(refusal) => write!(f, "{}", RefusalText(*refusal)),
            },
            Answer::Wiped(nodes) => writeln!(f, "wiped {nodes}"),
            Answer::Solved(Err(refusal)) => write!(f, "{}", RefusalText(*refusal)),
        }
    }
}
