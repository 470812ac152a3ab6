//! Records and nodes read back from a page.
ghost use Rattle.std.specs.Prelude.{◌≡◌, IfErr, length, slice_index_or};
ghost use Rattle.tree.specs.declared.node.Node.TheVariants.{None as Blank};
ghost use Rattle.base.specs.Refusals.{report_of};
ghost use Rattle.page.specs.Pages.{ReadsBack};
ghost use Rattle.page.specs.Records.{node_of, nodes_in};
ghost use Rattle.page.specs.Ties.{PlacedAt, ReportedAt, body_in, kind_in};

use crate::check::refusal;
use crate::number::{form_of, forms_of, new_of};
use crate::record::{Record, read};
use base::refusal::Refusal;
use tree::node::Node;

/// A record of a page and the offset of its kind byte, and of the record after it.
#[derive(Drop, Clone, Copy)]
pub struct Placed<'a> {
    pub offset: usize,
    pub found: Record<'a>,
    pub next: usize,
}

/// The record at an offset of a page: refused by 51 where bytes are missing, and by 52 where the byte is no kind.
pub fn record_at<'a>(page: &'a [u8], offset: usize) -> Result<Placed<'a>, Refusal>
    ensures value { PlacedAt page.now offset result }
    ensures report { IfErr result (λ e. ReportedAt page.now offset (report_of e)) }
{
    let Some(rest) = page.get(offset..) else {
        return Err(Refusal::PageLength { offset });
    };
    let (found, after) = read(rest).map_err(|flaw| refusal(flaw, offset))?;
    Ok(Placed {
        offset,
        found,
        next: page.len() - after.len(),
    })
}

// A function, no `From`: it bears the name of its definition, which contracts and edits cite.
/// The node of a record.
pub fn node_of(of: Record) -> Node
    ensures value { result ≡ node_of (kind_in of.entry) (body_in of.entry) }
{
    match of {
        Record::Head(body) => Node::Head {
            n: body[0],
            p: body[1],
        },
        Record::Keep(body) => Node::Keep(form_of(body)),
        Record::Split(body) => Node::Split(form_of(body)),
        Record::New(body) => {
            let (d, form) = new_of(body);
            Node::New { d, form }
        }
        Record::Leaf(body) => Node::Leaf(forms_of(body)),
        Record::None => Node::None,
    }
}

/// The node of the ith record of a page, from 0 on; the blank where there is none.
pub fn node_at(page: &[u8], i: usize) -> Node
    ensures value { result ≡ slice_index_or (nodes_in (length page.now) page.now) i Blank }
    ensures law { ReadsBack page.now i result }
{
    // no iterator of records: it would be a type and a contract for this one caller
    let mut rest = page;
    for _ in 0..i {
        let Ok((_, after)) = read(rest) else {
            return Node::None;
        };
        rest = after;
    }
    match read(rest) {
        Ok((found, _)) => node_of(found),
        Err(_) => Node::None,
    }
}
