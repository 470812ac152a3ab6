//! Nodes written as records.
ghost use Rattle.std.specs.Prelude.{◌≡◌, ◌+◌, ◌≤◌, true, ◌++◌, length, drop, map, nat_le, FitsSigned};
ghost use Rattle.std.specs.Int.{w32};
ghost use Rattle.page.specs.Pages.{WritesTree};
ghost use Rattle.page.specs.Records.{all_holdable, all_ten, cost_of, cost_of_all, fits_at, holdable, list_answer, list_written, page_of, pasted, record_length, record_of, ten, written_at};
ghost use Rattle.page.specs.Words.{all_bytes, bytes, forms_bytes};

use tree::kind::Kind;
use tree::node::{Node, NodeForm};

/// How many bytes the record of a kind takes.
pub fn record_length(kind: Kind) -> usize
    ensures value { result ≡ record_length kind }
{
    match kind {
        Kind::Head => 3,
        Kind::Keep | Kind::Split => 41,
        Kind::New => 45,
        Kind::Leaf => 241,
        Kind::None => 1,
    }
}

/// How many bytes the record of a node takes.
pub fn cost(node: &Node) -> usize
    ensures value { result ≡ cost_of node.now }
{
    record_length(node.kind())
}

/// The four bytes of a number, the highest first.
fn number_bytes(x: i32) -> [u8; 4]
    ensures value { result ≡ bytes x }
    ensures fits { FitsSigned w32 x }
{
    x.to_be_bytes()
}

/// The bytes of a form, number by number.
fn form_bytes(form: NodeForm) -> [[u8; 4]; 10]
    ensures value { result ≡ map bytes form }
    ensures ten { ten form ≡ true }
{
    form.map(number_bytes)
}

/// Writes a form over the bytes that it takes.
fn put_form(form: &NodeForm, slot: &mut [u8])
    requires { length slot.old ≡ 40 }
    ensures left { slot.new ≡ all_bytes form.now }
    ensures ten { ten form.now ≡ true }
{
    slot.copy_from_slice(form_bytes(*form).as_flattened());
}

/// Writes six forms over the bytes that they take, one after another.
fn put_forms(forms: &[NodeForm; 6], slot: &mut [u8])
    requires { length slot.old ≡ 240 }
    ensures left { slot.new ≡ forms_bytes forms.now }
    ensures ten { all_ten forms.now ≡ true }
    ensures six { length forms.now ≡ 6 }
{
    let [a, b, c, d, e, f] = forms;
    let (first, rest) = slot.split_at_mut(40);
    put_form(a, first);
    let (second, rest) = rest.split_at_mut(40);
    put_form(b, second);
    let (third, rest) = rest.split_at_mut(40);
    put_form(c, third);
    let (fourth, rest) = rest.split_at_mut(40);
    put_form(d, fourth);
    let (fifth, sixth) = rest.split_at_mut(40);
    put_form(e, fifth);
    put_form(f, sixth);
}

/// Inner: writes the record of a node over bytes that are just as many as it takes.
pub fn put(node: &Node, slot: &mut [u8])
    requires room { length slot.old ≡ cost_of node.now }
    ensures left { slot.new ≡ record_of node.now }
    ensures numbers { holdable node.now ≡ true }
{
    let (kind, body) = slot.split_at_mut(1);
    kind[0] = u8::from(node.kind());
    match node {
        Node::Head { n, p } => body.copy_from_slice(&[*n, *p]),
        Node::Keep(form) | Node::Split(form) => {
            body.copy_from_slice(form_bytes(*form).as_flattened());
        }
        Node::New { d, form } => {
            let (number, rest) = body.split_at_mut(4);
            number.copy_from_slice(&number_bytes(*d));
            rest.copy_from_slice(form_bytes(*form).as_flattened());
        }
        Node::Leaf(forms) => {
            put_forms(forms, body);
        }
        Node::None => {}
    }
}

/// Inner: writes the record of a node over the page from an offset on, where there is room for it.
pub fn put_at(node: &Node, page: &mut [u8], offset: usize)
    requires room { offset + cost_of node.now ≤ length page.old }
    ensures left { page.new ≡ pasted offset (record_of node.now) page.old }
    ensures numbers { holdable node.now ≡ true }
{
    put(node, &mut page[offset..offset + cost(node)]);
}

/// Whether so many bytes are there from an offset on.
fn has_room(bytes: usize, offset: usize, cost: usize) -> bool
    ensures value { result ≡ nat_le (offset + cost) bytes }
{
    offset <= bytes && cost <= bytes - offset
}

// A bool: it is a test for room, and no refusal has a number for it.
/// Writes the record of a node over the page from an offset on; false, and nothing is written, where the page is
/// too short for it.
pub fn write(node: &Node, page: &mut [u8], offset: usize) -> bool
    ensures said { result ≡ fits_at offset node.now page.old }
    ensures left { page.new ≡ written_at offset node.now page.old }
{
    if !has_room(page.len(), offset, cost(node)) {
        return false;
    }
    put_at(node, page, offset);
    true
}

/// How many bytes the records of a list of nodes take, if so many bytes are enough for them.
fn length_within(nodes: &[Node], bytes: usize) -> Option<usize>
    ensures value { result ≡ list_answer nodes.now bytes }
{
    // what is free goes down, so that no sum can pass the largest number
    let mut free = bytes;
    for node in nodes {
        free = free.checked_sub(cost(node))?;
    }
    Some(bytes - free)
}

/// Writes the records of a list of nodes from the first byte on.
fn put_all(nodes: &[Node], page: &mut [u8])
    requires room { cost_of_all nodes.now ≤ length page.old }
    ensures left { page.new ≡ page_of nodes.now ++ drop (cost_of_all nodes.now) page.old }
    ensures numbers { all_holdable nodes.now ≡ true }
{
    let mut at = 0;
    for node in nodes {
        put_at(node, page, at);
        at += cost(node);
    }
}

// An `Option`, as `write` has a bool: no refusal has a number for a page that is too short.
/// Writes the records of a list of nodes over the page from its first byte on, and answers how many bytes they take;
/// none, and nothing is written, where the page is too short for them.
pub fn write_list(nodes: &[Node], page: &mut [u8]) -> Option<usize>
    ensures answer { result ≡ list_answer nodes.now (length page.old) }
    ensures left { page.new ≡ list_written nodes.now page.old }
    ensures law { WritesTree nodes.now page.new result }
{
    let length = length_within(nodes, page.len())?;
    put_all(nodes, page);
    Some(length)
}
