//! Serving a script: its store and work table first, then its calls on one sheet.
use crate::line::{Line, Room, read_line};
use crate::show::AnswerLine;
use base::refusal::Refusal;
use listing::show::{RefusalText, TreeLines};
use listing::solve::nodes_of;
use page_store::page_store::PageStore;
use sheet::call::{Answer, Call};
use sheet::run::run;
use sheet::sheet::Sheet;
use source::rows::RowSource;
use source::source::Source;
use std::alloc::{AllocError, Global};
use std::io::Write;
use std::mem;
use store::node_store::NodeStore;
use store::store::Store;
use tree::node::Node;

/// What a script asks for before its calls.
#[derive(Clone, Copy)]
struct Wanted {
    store: Room,
    work: usize,
    /// How many lines it took to say so.
    lines: usize,
}

/// Calls that are to be made, and the lines that they stand on.
#[derive(Drop)]
struct Batch {
    calls: Vec<Call<RowSource>>,
    /// For each line that is answered: that it is the next call, or by which number it is refused.
    lines: Vec<Option<Refusal>>,
}

impl Batch {
    fn new(alloc: Global) -> Batch {
        Batch {
            calls: Vec::new(alloc),
            lines: Vec::new(alloc),
        }
    }

    /// A line with a call.
    fn call(&mut self, call: Call<RowSource>) -> Result<(), AllocError> {
        self.calls.push(call)?;
        self.lines.push(None)?;
        Ok(())
    }

    /// A line that is refused.
    fn refuse(&mut self, refusal: Refusal) -> Result<(), AllocError> {
        self.lines.push(Some(refusal))?;
        Ok(())
    }
}

/// A sheet at work.
#[derive(Drop)]
struct AtWork<T: Store> {
    sheet: Sheet<T>,
    work: Vec<Node>,
    /// How many unknowns the standing system has.
    unknowns: usize,
}

impl<T: Store> AtWork<T> {
    /// Prints the answer of a call.
    fn show<W: Write>(
        &mut self,
        call: &Call<RowSource>,
        answer: &Answer,
        out: &mut W,
    ) -> anyhow::Result<()> {
        if let (Call::Solve { source, .. }, Answer::Solved(Ok(_))) = (call, answer) {
            self.unknowns = source.unknowns();
        }
        let unknowns = self.unknowns;
        write!(out, "{}", AnswerLine { answer, unknowns })?;
        Ok(())
    }

    /// Makes the calls of a batch, and prints what its lines are answered.
    fn make<W: Write>(&mut self, alloc: Global, batch: &Batch, out: &mut W) -> anyhow::Result<()> {
        let calls = batch.calls.as_slice();
        let answers = run(&mut self.sheet, alloc, self.work.as_mut_slice(), calls)?;
        let mut made = calls.iter().zip(answers.iter());
        for line in &batch.lines {
            match line {
                Some(refusal) => write!(out, "{}", RefusalText(*refusal))?,
                None => {
                    if let Some((call, answer)) = made.next() {
                        self.show(call, answer, out)?;
                    }
                }
            }
        }
        Ok(())
    }

    /// Prints the sheet's tree.
    fn show_tree<W: Write>(&self, alloc: Global, out: &mut W) -> anyhow::Result<()> {
        let nodes = nodes_of(alloc, &self.sheet)?;
        write!(out, "{}", TreeLines(nodes.as_slice()))?;
        Ok(())
    }
}

/// Reads the lines up to those that say which store and which work table are wanted; none, where there are no such lines.
fn read_wanted<W: Write>(
    alloc: Global,
    script: &[u8],
    out: &mut W,
) -> anyhow::Result<Option<Wanted>> {
    let mut store = None;
    let mut work = None;
    for (i, line) in script.split(|b| *b == b'\n').enumerate() {
        match read_line(alloc, line)? {
            Line::Nothing => (),
            Line::Store(room) if store.is_none() => store = Some(room),
            Line::Work(nodes) if work.is_none() => work = Some(nodes),
            _ => write!(out, "{}", RefusalText(Refusal::Listing))?,
        }
        if let (Some(store), Some(work)) = (store, work) {
            let lines = i + 1;
            return Ok(Some(Wanted { store, work, lines }));
        }
    }
    Ok(None)
}

/// Serves the lines of a script after the first ones, on a sheet over this store.
fn serve<T: Store + Drop, W: Write>(
    alloc: Global,
    store: T,
    wanted: Wanted,
    script: &[u8],
    out: &mut W,
) -> anyhow::Result<()> {
    let mut at_work = AtWork {
        sheet: Sheet::new(store),
        work: vec![in alloc; Node::None; wanted.work]?,
        unknowns: 0,
    };
    let mut batch = Batch::new(alloc);
    for line in script.split(|b| *b == b'\n').skip(wanted.lines) {
        match read_line(alloc, line)? {
            Line::Nothing => (),
            Line::Call(call) => batch.call(call)?,
            Line::Refused(refusal) => batch.refuse(refusal)?,
            Line::Store(_) | Line::Work(_) => batch.refuse(Refusal::Listing)?,
            Line::Tree => {
                let calls = mem::replace(&mut batch, Batch::new(alloc));
                at_work.make(alloc, &calls, out)?;
                at_work.show_tree(alloc, out)?;
            }
        }
    }
    at_work.make(alloc, &batch, out)
}

/// Prints what the lines of a script are answered.
pub(crate) fn answer<W: Write>(alloc: Global, script: &[u8], out: &mut W) -> anyhow::Result<()> {
    let Some(wanted) = read_wanted(alloc, script, out)? else {
        return Ok(());
    };
    match wanted.store {
        Room::Nodes(nodes) => {
            let table = vec![in alloc; Node::None; nodes]?;
            serve(alloc, NodeStore::new(table), wanted, script, out)
        }
        Room::Page(bytes) => {
            let page = vec![in alloc; 0; bytes]?;
            // a record has at least one byte
            let index = vec![in alloc; 0; bytes]?;
            serve(alloc, PageStore::new(page, index), wanted, script, out)
        }
    }
}
