//! Reading a line of a script.
use base::refusal::Refusal;
use listing::read::read;
use listing::word::{after_blanks, first_word, number};
use sheet::call::Call;
use source::rows::RowSource;
use std::alloc::{AllocError, Global};

/// The most nodes or bytes that a script may ask for.
const MOST: usize = 65_536;

/// The store that a script asks for.
#[derive(Clone, Copy)]
pub(crate) enum Room {
    /// A table of so many nodes.
    Nodes(usize),
    /// A page of so many bytes.
    Page(usize),
}

/// What a line of a script says.
#[derive(Drop)]
pub(crate) enum Line {
    /// Nothing: it is blank, or a remark.
    Nothing,
    /// The store to be used.
    Store(Room),
    /// The length of the work table to be used.
    Work(usize),
    /// A call on the sheet.
    Call(Call<RowSource>),
    /// That the sheet's tree is to be printed.
    Tree,
    /// No line of a script, or one that is refused before its call is made.
    Refused(Refusal),
}

/// Whether no word is left.
fn is_end(text: &[u8]) -> bool {
    after_blanks(text).is_empty()
}

/// The one number that a text spells, where it is from 0 to the most.
fn size(text: &[u8]) -> Option<usize> {
    let (word, rest) = first_word(text);
    let size = usize::try_from(number(word)?).ok()?;
    (size <= MOST && is_end(rest)).then_some(size)
}

/// The store that a text names by its kind and its size.
fn room_of(text: &[u8]) -> Option<Room> {
    let (kind, rest) = first_word(text);
    match kind {
        b"nodes" => size(rest).map(Room::Nodes),
        b"page" => size(rest).map(Room::Page),
        _ => None,
    }
}

/// The numbers that the words of a text spell; none where a word spells no number.
fn numbers(alloc: Global, text: &[u8]) -> Result<Option<Vec<i64>>, AllocError> {
    let mut numbers = Vec::new(alloc);
    let mut rest = text;
    // there are no more words than bytes
    for _ in 0..text.len() {
        if is_end(rest) {
            break;
        }
        let (word, after) = first_word(rest);
        let Some(x) = number(word) else {
            return Ok(None);
        };
        numbers.push(x)?;
        rest = after;
    }
    Ok(Some(numbers))
}

/// This line, if no word follows; else it is refused.
fn alone(line: Line, rest: &[u8]) -> Line {
    if is_end(rest) {
        line
    } else {
        Line::Refused(Refusal::Listing)
    }
}

/// The solve of a listing.
fn solve(text: &[u8]) -> Line {
    match read(text) {
        Ok(listing) => Line::Call(Call::Solve {
            source: listing.source,
            fuel: listing.fuel,
        }),
        Err(refusal) => Line::Refused(refusal),
    }
}

/// The find at a point.
fn find(alloc: Global, text: &[u8]) -> Result<Line, AllocError> {
    Ok(match numbers(alloc, text)? {
        Some(point) => Line::Call(Call::Find { point }),
        None => Line::Refused(Refusal::Listing),
    })
}

/// Reads a line.
pub(crate) fn read_line(alloc: Global, line: &[u8]) -> Result<Line, AllocError> {
    if line.first() == Some(&b'#') {
        return Ok(Line::Nothing);
    }
    let (word, rest) = first_word(line);
    Ok(match word {
        b"" => Line::Nothing,
        b"store" => room_of(rest).map_or(Line::Refused(Refusal::Listing), Line::Store),
        b"work" => size(rest).map_or(Line::Refused(Refusal::Listing), Line::Work),
        b"solve" => solve(rest),
        b"find" => find(alloc, rest)?,
        b"wipe" => alone(Line::Call(Call::Wipe), rest),
        b"tree" => alone(Line::Tree, rest),
        _ => Line::Refused(Refusal::Listing),
    })
}
