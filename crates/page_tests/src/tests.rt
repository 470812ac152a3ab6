//! Pages by example, and against a plain check that knows nothing of the reader.
use base::refusal::Refusal;
use page::back::{node_at, node_of, record_at};
use page::check::check;
use page::reply::reply;
use page::write::{cost, write, write_list};
use std::alloc::{AllocError, AllocFailed, Global};
use std::array;
use std::process::Abort;
use tree::node::{Node, NodeForm};
use tree::walk::Found;
use worked_tree::{WORKED, form};

/// The page of the worked tree.
fn half_page() -> [u8; 571] {
    let mut page = [0; 571];
    let _ = write_list(&WORKED, &mut page);
    page
}

/// The answer to the page of these nodes, or none if it has more than 600 bytes.
fn answer(nodes: &[Node]) -> Option<Result<usize, Refusal>> {
    let mut page = [0; 600];
    let end = write_list(nodes, &mut page)?;
    page.get(..end).map(check)
}

/// Compares the answer with the one that is wanted.
fn answers(rt: &impl Abort, nodes: &[Node], want: Result<usize, Refusal>) {
    assert_eq!(rt; answer(nodes), Some(want));
}

#[test]
fn the_worked_tree_takes_571_bytes_and_reads_back(rt: HostRuntime) {
    let mut page = [9; 572];
    assert_eq!(rt; write_list(&WORKED, &mut page), Some(571));
    assert_eq!(rt; page[571], 9);
    assert_eq!(rt; check(&page[..571]), Ok(5));
    for (i, node) in WORKED.iter().enumerate() {
        assert_eq!(rt; node_at(&page, i), *node);
    }
    assert_eq!(rt; node_at(&page, 5), Node::None);
    // the page as it is when it ends with its last record, written node by node
    let mut whole = [0; 571];
    let mut at = 0usize;
    for node in &WORKED {
        assert_eq!(rt; write(node, &mut whole, at), true);
        at = at.saturating_add(cost(node));
    }
    assert_eq!(rt; at, 571);
    assert_eq!(rt; check(&whole), Ok(5));
    for (i, node) in WORKED.iter().enumerate() {
        assert_eq!(rt; node_at(&whole, i), *node);
    }
    assert_eq!(rt; node_at(&whole, 5), Node::None);
}

/// The record at an offset is this node's, and the next one begins where it should.
fn stands(rt: &impl Abort, page: &[u8], offset: usize, node: Node, next: usize) {
    match record_at(page, offset) {
        Ok(placed) => {
            assert_eq!(rt; placed.offset, offset);
            assert_eq!(rt; node_of(placed.found), node);
            assert_eq!(rt; placed.next, next);
        }
        Err(_) => assert!(rt; false),
    }
}

/// By what the record at an offset is refused.
fn refused_at(page: &[u8], offset: usize) -> Option<Refusal> {
    record_at(page, offset).err()
}

#[test]
fn records_stand_at_their_offsets(rt: HostRuntime) {
    let page = half_page();
    stands(&rt, &page, 0, WORKED[0], 3);
    stands(&rt, &page, 3, WORKED[1], 44);
    stands(&rt, &page, 44, WORKED[2], 285);
    stands(&rt, &page, 285, WORKED[3], 330);
    stands(&rt, &page, 330, WORKED[4], 571);
    let end = Refusal::PageLength { offset: 571 };
    assert_eq!(rt; refused_at(&page, 571), Some(end));
    let beyond = Refusal::PageLength { offset: 600 };
    assert_eq!(rt; refused_at(&page, 600), Some(beyond));
    // the second number of the head is no kind, and the first byte of a form begins no record
    assert_eq!(rt; refused_at(&page, 4), Some(Refusal::PageKind { offset: 4 }));
}

#[test]
fn a_record_without_its_whole_body_is_refused(rt: HostRuntime) {
    let short = Refusal::PageLength { offset: 1 };
    assert_eq!(rt; refused_at(&[6, 1, 2], 1), Some(short));
    assert_eq!(rt; refused_at(&[6, 4, 0, 0], 1), Some(short));
}

#[test]
fn a_page_too_short_is_left_alone(rt: HostRuntime) {
    let mut page = [9; 570];
    assert_eq!(rt; write_list(&WORKED, &mut page), None);
    assert_eq!(rt; page, [9; 570]);
    assert_eq!(rt; write(&WORKED[1], &mut page, 530), false);
    assert_eq!(rt; page, [9; 570]);
    assert_eq!(rt; write_list(&[], &mut page[..0]), Some(0));
}

#[test]
fn one_record_is_written_at_its_offset(rt: HostRuntime) {
    let mut page = half_page();
    assert_eq!(rt; cost(&WORKED[1]), 41);
    assert_eq!(rt; write(&Node::Keep(form(1, 0, -2)), &mut page, 3), true);
    assert_eq!(rt; page[2], 1);
    assert_eq!(rt; &page[3..8], [2, 0, 0, 0, 1].as_slice());
    assert_eq!(rt; &page[40..45], [255, 255, 255, 254, 5].as_slice());
    assert_eq!(rt; node_at(&page, 1), Node::Keep(form(1, 0, -2)));
    assert_eq!(rt; node_at(&page, 2), WORKED[2]);
}

#[test]
fn a_page_replies(rt: HostRuntime) {
    let page = half_page();
    let mut place = [7; 6];
    for (k, first) in [(0, 0), (3, 2), (4, 2)] {
        assert_eq!(rt; reply(&page, &[k], &mut place), Ok(Found::Point));
        assert_eq!(rt; place, [first, 0, 0, 0, 0, 0]);
    }
    assert_eq!(rt;
        reply(&page, &[-1, 0], &mut place),
        Err(Refusal::PointLength)
    );
    assert_eq!(rt; place, [0; 6]);
    assert_eq!(rt; reply(&page, &[-1], &mut place), Err(Refusal::PointNumber));
    let keep = form(-1, 0, 10);
    let bounded = [Node::Head { n: 1, p: 1 }, Node::Keep(keep), Node::None];
    let mut page = [0; 45];
    assert_eq!(rt; write_list(&bounded, &mut page), Some(45));
    assert_eq!(rt; reply(&page, &[11], &mut place), Err(Refusal::OutsideKeep));
    assert_eq!(rt; reply(&page, &[10], &mut place), Ok(Found::None));
}

#[test]
fn a_broken_page_replies_by_its_refusal(rt: HostRuntime) {
    let mut page = [0; 571];
    let mut place = [7; 6];
    assert_eq!(rt; write_list(&WORKED, &mut page), Some(571));
    // the last leaf wants its last byte, and the point is none
    let short = Refusal::PageLength { offset: 330 };
    assert_eq!(rt; reply(&page[..570], &[-1], &mut place), Err(short));
    assert_eq!(rt; place, [0; 6]);
    page[44] = 1;
    let kind = Refusal::PageKind { offset: 44 };
    assert_eq!(rt; reply(&page, &[3], &mut place), Err(kind));
}

#[test]
fn each_refusal_carries_its_offset(rt: HostRuntime) {
    let head = Node::Head { n: 1, p: 0 };
    let keep = Node::Keep(form(0, 0, 1));
    let split = Node::Split(form(0, 0, 0));
    let new = Node::New {
        d: 2,
        form: form(1, 0, 0),
    };
    answers(&rt, &[], Err(Refusal::PageLength { offset: 0 }));
    answers(&rt, &[keep], Err(Refusal::PageKind { offset: 0 }));
    answers(&rt, &[head], Err(Refusal::PageLength { offset: 3 }));
    let rest = [head, Node::None, Node::None];
    answers(&rt, &rest, Err(Refusal::PageLength { offset: 4 }));
    let nine = [head, keep, keep, keep, keep, keep, keep, keep, keep, keep];
    answers(&rt, &nine, Err(Refusal::PageKind { offset: 331 }));
    let seven = [Node::Head { n: 7, p: 0 }, Node::None];
    answers(&rt, &seven, Err(Refusal::PageNumber { offset: 0 }));
    let unused = [head, new, Node::None];
    answers(&rt, &unused, Err(Refusal::PageNumber { offset: 3 }));
    let mut deep = [split; 14];
    deep[0] = head;
    answers(&rt, &deep, Err(Refusal::PageDepth { offset: 495 }));
    let mut sixth = [new; 7];
    sixth[0] = Node::Head { n: 1, p: 1 };
    answers(&rt, &sixth, Err(Refusal::PageDepth { offset: 228 }));
}

#[test]
fn the_kind_comes_before_the_body_and_the_body_before_its_numbers(rt: HostRuntime) {
    assert_eq!(rt; check(&[3]), Err(Refusal::PageKind { offset: 0 }));
    assert_eq!(rt; check(&[1, 1]), Err(Refusal::PageLength { offset: 0 }));
    assert_eq!(rt;
        check(&[1, 1, 5, 7]),
        Err(Refusal::PageNumber { offset: 0 })
    );
    assert_eq!(rt; check(&[1, 1, 4, 7]), Err(Refusal::PageKind { offset: 3 }));
    assert_eq!(rt;
        check(&[1, 1, 4, 3]),
        Err(Refusal::PageLength { offset: 3 })
    );
    assert_eq!(rt;
        check(&[1, 1, 4, 3, 255]),
        Err(Refusal::PageLength { offset: 3 })
    );
    let mut page = [0; 600];
    let head = Node::Head { n: 1, p: 0 };
    let mut deep = [Node::Split(form(0, 0, 0)); 14];
    deep[0] = head;
    let _ = write_list(&deep, &mut page);
    // the thirteenth split, with none of its body
    assert_eq!(rt;
        check(&page[..496]),
        Err(Refusal::PageDepth { offset: 495 })
    );
}

// ---- a plain check: kinds are the bytes of the format here, and places are counted, since it is to know nothing of the reader

/// Zero where the page has ended.
fn byte(page: &[u8], at: usize) -> u8 {
    page.get(at).copied().unwrap_or(0)
}

fn number(page: &[u8], at: usize) -> i32 {
    i32::from_be_bytes(array::from_fn(|k| byte(page, at.wrapping_add(k))))
}

fn ten_numbers(page: &[u8], at: usize) -> NodeForm {
    array::from_fn(|k| number(page, at.wrapping_add(k.wrapping_mul(4))))
}

/// The sizes that a head gives.
#[derive(Clone, Copy)]
struct Sizes {
    n: u8,
    p: u8,
}

/// Whether one of ten numbers is larger than 2^30 in size, or stands where none may: at a parameter that is
/// not one of p, at a new parameter that is not one of `made`.
fn bad_form(form: &NodeForm, p: u8, made: u8) -> bool {
    form.iter().enumerate().any(|(k, x)| {
        let parameter = k < 4 && k >= usize::from(p);
        let new = k > 3 && k < 9 && k >= usize::from(made).wrapping_add(4);
        *x > 1 << 30 || *x < -(1 << 30) || ((parameter || new) && *x != 0)
    })
}

fn bad_new(d: i32, form: &NodeForm, p: u8, made: u8) -> bool {
    let named = form[..9].iter().any(|x| *x > 0);
    let beyond = form.iter().any(|x| *x < 0 || *x >= d);
    beyond || d < 2 || d > 1 << 30 || !named || bad_form(form, p, made)
}

fn bad_leaf(page: &[u8], at: usize, sizes: Sizes, made: u8) -> bool {
    (0..6usize).any(|f| {
        let form = ten_numbers(page, at.wrapping_add(f.wrapping_mul(40)));
        if f < usize::from(sizes.n) {
            bad_form(&form, sizes.p, made)
        } else {
            form.iter().any(|x| *x != 0)
        }
    })
}

/// Refuses the record at this place if it may not stand there, where so many splits may follow and so many new
/// parameters stand above.
fn look(page: &[u8], at: usize, sizes: Sizes, left: u8, made: u8) -> Result<(), Refusal> {
    let kind = byte(page, at);
    let body = at.wrapping_add(1);
    let room = page.len().wrapping_sub(body);
    if at >= page.len() {
        return Err(Refusal::PageLength { offset: at });
    }
    if kind < 3 || kind > 6 {
        return Err(Refusal::PageKind { offset: at });
    }
    if (kind == 3 && left < 1) || (kind == 4 && made > 4) {
        return Err(Refusal::PageDepth { offset: at });
    }
    if (kind == 3 && room < 40) || (kind == 4 && room < 44) || (kind == 5 && room < 240) {
        return Err(Refusal::PageLength { offset: at });
    }
    let bad = match kind {
        3 => bad_form(&ten_numbers(page, body), sizes.p, made),
        4 => {
            let form = ten_numbers(page, body.wrapping_add(4));
            bad_new(number(page, body), &form, sizes.p, made)
        }
        5 => bad_leaf(page, body, sizes, made),
        _ => false,
    };
    if bad {
        Err(Refusal::PageNumber { offset: at })
    } else {
        Ok(())
    }
}

// An error type of these tests' own.
/// Why the plain check ends early.
enum Stop {
    Refused(Refusal),
    NoMemory(AllocError),
}

impl From<Refusal> for Stop {
    fn from(refusal: Refusal) -> Stop {
        Stop::Refused(refusal)
    }
}

impl<T: Drop> From<AllocFailed<T>> for Stop {
    fn from(failed: AllocFailed<T>) -> Stop {
        Stop::NoMemory(AllocError::from(failed))
    }
}

/// What was read of a page: the head's sizes, where the next record begins, and how many there were.
#[derive(Clone, Copy)]
struct Top {
    sizes: Sizes,
    at: usize,
    records: usize,
}

/// The head and the keeps.
fn plain_top(page: &[u8]) -> Result<Top, Refusal> {
    let sizes = Sizes {
        n: byte(page, 1),
        p: byte(page, 2),
    };
    if page.is_empty() {
        return Err(Refusal::PageLength { offset: 0 });
    }
    if byte(page, 0) != 1 {
        return Err(Refusal::PageKind { offset: 0 });
    }
    if page.len() < 3 {
        return Err(Refusal::PageLength { offset: 0 });
    }
    if sizes.n < 1 || sizes.n > 6 || sizes.p > 4 {
        return Err(Refusal::PageNumber { offset: 0 });
    }
    let mut at: usize = 3;
    let mut records: usize = 1;
    for _ in 0..8 {
        if byte(page, at) != 2 {
            break;
        }
        if page.len().wrapping_sub(at) < 41 {
            return Err(Refusal::PageLength { offset: at });
        }
        if bad_form(&ten_numbers(page, at.wrapping_add(1)), sizes.p, 0) {
            return Err(Refusal::PageNumber { offset: at });
        }
        at = at.wrapping_add(41);
        records = records.wrapping_add(1);
    }
    Ok(Top { sizes, at, records })
}

/// The trees below, by a list of those that are still to come, the next one last: how many splits may stand in
/// each, and how many new parameters stand above it.
fn plain_trees(heap: Global, page: &[u8], top: &Top) -> Result<usize, Stop> {
    let mut at = top.at;
    let mut records = top.records;
    let mut due: Vec<(u8, u8)> = Vec::new(heap);
    due.push((12, 0))?;
    // a bound on the records, so that it ends on any page
    for _ in 0..1000 {
        let Some((left, made)) = due.pop() else {
            break;
        };
        look(page, at, top.sizes, left, made)?;
        records = records.wrapping_add(1);
        match byte(page, at) {
            3 => {
                due.push((left.wrapping_sub(1), made))?;
                due.push((left.wrapping_sub(1), made))?;
                at = at.wrapping_add(41);
            }
            4 => {
                due.push((left, made.wrapping_add(1)))?;
                at = at.wrapping_add(45);
            }
            5 => at = at.wrapping_add(241),
            _ => at = at.wrapping_add(1),
        }
    }
    if at < page.len() {
        Err(Stop::Refused(Refusal::PageLength { offset: at }))
    } else {
        Ok(records)
    }
}

/// Compares what `check` answers with the plain check.
fn alike(rt: &impl Abort, heap: Global, page: &[u8]) -> Result<(), AllocError> {
    let trees = |top: Top| plain_trees(heap, page, &top);
    match plain_top(page).map_err(Stop::from).and_then(trees) {
        Ok(records) => assert_eq!(rt; check(page), Ok(records)),
        Err(Stop::Refused(refusal)) => assert_eq!(rt; check(page), Err(refusal)),
        Err(Stop::NoMemory(error)) => return Err(error),
    }
    Ok(())
}

#[test]
fn every_truncation_is_refused_alike(rt: HostRuntime) -> Result<(), AllocError> {
    let page = half_page();
    // ranges of cases, here and below: the places and bytes that are to be tried
    for end in 0..571 {
        let part = &page[..end];
        assert!(rt; matches!(check(part), Err(Refusal::PageLength { offset: _ })));
        alike(&rt, rt.alloc(), part)?;
    }
    alike(&rt, rt.alloc(), &page)
}

/// Whether each other value of a byte is answered alike.
fn changes(rt: &impl Abort, heap: Global, page: &[u8; 571], i: usize) -> Result<(), AllocError> {
    for d in 1..=255u8 {
        let mut other = *page;
        if let Some(b) = other.get_mut(i) {
            *b = b.wrapping_add(d);
        }
        alike(rt, heap, &other)?;
    }
    Ok(())
}

#[test]
fn every_change_of_a_byte_is_answered_alike(rt: HostRuntime) -> Result<(), AllocError> {
    let page = half_page();
    for i in 0..571 {
        changes(&rt, rt.alloc(), &page, i)?;
    }
    Ok(())
}
