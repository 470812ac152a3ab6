//! Showing an answer.
ghost use Rattle.std.specs.Prelude.{◌≡◌, take, Some};
ghost use Rattle.std.specs.List.{flat_map};
ghost use Rattle.listing.specs.Texts.{line, node_text, point, refusal_text, steps_line, tree_lines, tree_text, unknowns_of};

use base::refusal::Refusal;
use std::fmt;
use tree::node::{Node, NodeForm};

/// The lines of a tree: one for each node, and after a leaf one for each unknown.
#[derive(Drop)]
pub struct TreeLines<'a>(pub &'a [Node]);

/// The line of the steps made.
#[derive(Clone, Copy)]
pub struct StepsLine(pub u32);

/// A solve as text: the tree's lines, and the steps made.
#[derive(Drop)]
pub struct TreeText<'a> {
    pub nodes: &'a [Node],
    pub steps: u32,
}

/// A refusal as text: its number.
#[derive(Clone, Copy)]
pub struct RefusalText(pub Refusal);

/// The numbers of a form, a space before each, and the end of the line.
#[derive(Drop)]
struct Line<'a>(&'a [i32]);

impl fmt::Display for Line<'_> {
    ghost output = { λ x. Some (line x.0.now) };

    fn fmt<W: fmt::Write>(&self, f: &mut fmt::Formatter<W>) -> fmt::Result {
        for x in self.0 {
            write!(f, " {x}")?;
        }
        writeln!(f, "")
    }
}

/// A line for each form.
#[derive(Drop)]
struct Points<'a>(&'a [NodeForm]);

impl fmt::Display for Points<'_> {
    ghost output = { λ x. Some (flat_map point x.0.now) };

    fn fmt<W: fmt::Write>(&self, f: &mut fmt::Formatter<W>) -> fmt::Result {
        for form in self.0 {
            write!(f, "at{}", Line(form))?;
        }
        Ok(())
    }
}

/// The forms of the unknowns that there are.
fn of_unknowns(forms: &[NodeForm; 6], unknowns: u8) -> &[NodeForm]
    ensures value { result.now ≡ take unknowns forms.now }
{
    forms.get(..usize::from(unknowns)).unwrap_or(forms)
}

/// A node of a tree with so many unknowns.
#[derive(Drop)]
struct Lines<'a> {
    node: &'a Node,
    unknowns: u8,
}

impl fmt::Display for Lines<'_> {
    ghost output = { λ x. Some (node_text x.unknowns x.node.now) };

    fn fmt<W: fmt::Write>(&self, f: &mut fmt::Formatter<W>) -> fmt::Result {
        match self.node {
            Node::Head { n, p } => writeln!(f, "head {n} {p}"),
            Node::Keep(form) => write!(f, "keep{}", Line(form)),
            Node::Split(form) => write!(f, "if{}", Line(form)),
            Node::New { d, form } => write!(f, "new {d}{}", Line(form)),
            Node::Leaf(forms) => write!(f, "leaf\n{}", Points(of_unknowns(forms, self.unknowns))),
            Node::None => writeln!(f, "none"),
        }
    }
}

/// How many unknowns the head of a tree names.
fn unknowns_of(nodes: &[Node]) -> u8
    ensures value { result ≡ unknowns_of nodes.now }
{
    match nodes {
        [Node::Head { n, p: _ }, ..] => *n,
        _ => 0,
    }
}

impl fmt::Display for TreeLines<'_> {
    ghost output = { λ x. Some (tree_lines x.0.now) };

    fn fmt<W: fmt::Write>(&self, f: &mut fmt::Formatter<W>) -> fmt::Result {
        let unknowns = unknowns_of(self.0);
        for node in self.0 {
            write!(f, "{}", Lines { node, unknowns })?;
        }
        Ok(())
    }
}

impl fmt::Display for StepsLine {
    ghost output = { λ x. Some (steps_line x.0) };

    fn fmt<W: fmt::Write>(&self, f: &mut fmt::Formatter<W>) -> fmt::Result {
        writeln!(f, "steps {}", self.0)
    }
}

impl fmt::Display for TreeText<'_> {
    ghost output = { λ x. Some (tree_text x.nodes.now x.steps) };

    fn fmt<W: fmt::Write>(&self, f: &mut fmt::Formatter<W>) -> fmt::Result {
        write!(f, "{}{}", TreeLines(self.nodes), StepsLine(self.steps))
    }
}

impl fmt::Display for RefusalText {
    ghost output = { λ x. Some (refusal_text x.0) };

    fn fmt<W: fmt::Write>(&self, f: &mut fmt::Formatter<W>) -> fmt::Result {
        writeln!(f, "refused {}", self.0.report().number)
    }
}
