//! Listings by example.
use crate::read::{LONGEST, read};
use crate::show::{RefusalText, TreeText};
use crate::solve::solve_text;
use base::refusal::{Met, Place, Refusal};
use sheet::sheet::Sheet;
use source::source::Source;
use std::test::Fail;
use store::node_store::NodeStore;
use tree::node::Node;

/// By which refusal a listing is refused.
fn refusal(text: &[u8]) -> Option<Refusal> {
    read(text).err()
}

#[test]
fn a_listing_is_read(rt: HostRuntime) -> Result<(), Fail> {
    let listing = read(b"1 1 1 0 12 2 -1 0")?;
    assert_eq!(rt; listing.fuel, 12);
    assert_eq!(rt; listing.source.unknowns(), 1);
    assert_eq!(rt; listing.source.parameters(), 1);
    assert_eq!(rt; listing.source.rows(), 1);
    assert_eq!(rt; listing.source.context_rows(), 0);
    assert_eq!(rt; listing.source.number(0, 0), 2);
    assert_eq!(rt; listing.source.number(0, 1), -1);
    assert_eq!(rt; listing.source.number(0, 2), 0);
    Ok(())
}

#[test]
fn blanks_zeros_and_context_rows(rt: HostRuntime) -> Result<(), Fail> {
    let listing = read(b"\r\n 01\t1 -0 2\n-7\n 3 4\n-000000005 999999\n")?;
    assert_eq!(rt; listing.fuel, -7);
    assert_eq!(rt; listing.source.rows(), 0);
    assert_eq!(rt; listing.source.context_rows(), 2);
    assert_eq!(rt; listing.source.context_number(0, 1), 4);
    assert_eq!(rt; listing.source.context_number(1, 0), -5);
    assert_eq!(rt; listing.source.context_number(1, 1), 999_999);
    Ok(())
}

#[test]
fn counts_come_first(rt: HostRuntime) {
    assert_eq!(rt; refusal(b"9 9 9 9 9 x"), Some(Refusal::Counts));
    assert_eq!(rt; refusal(b"1 1 1 -1"), Some(Refusal::Counts));
    assert_eq!(rt; refusal(b"0 0 0 0"), Some(Refusal::Counts));
    assert_eq!(rt; refusal(b"9 9 9 x"), Some(Refusal::Listing));
}

#[test]
fn what_is_no_listing(rt: HostRuntime) {
    assert_eq!(rt; refusal(b""), Some(Refusal::Listing));
    assert_eq!(rt; refusal(b"1 1 1 0 12 2 -1"), Some(Refusal::Listing));
    assert_eq!(rt; refusal(b"1 1 1 0 12 2 -1 0 0"), Some(Refusal::Listing));
    assert_eq!(rt; refusal(b"1 1 1 0 12 2 - 0"), Some(Refusal::Listing));
    assert_eq!(rt; refusal(b"1 1 1 0 12 2 +1 0"), Some(Refusal::Listing));
    assert_eq!(rt;
        refusal(b"1 1 1 0 0000000012 2 -1 0"),
        Some(Refusal::Listing)
    );
    assert_eq!(rt; refusal(b"1 1 1 0 12 2 -1 0.5"), Some(Refusal::Listing));
}

#[test]
fn long_listings(rt: HostRuntime) {
    let mut text = [b' '; 65_537];
    text[0..17].copy_from_slice(b"1 1 1 0 12 2 -1 0");
    assert_eq!(rt; refusal(&text[0..LONGEST]), None);
    assert_eq!(rt; refusal(&text), Some(Refusal::Listing));
    text[0] = b'7';
    assert_eq!(rt; refusal(&text), Some(Refusal::Counts));
}

#[test]
fn large_numbers_come_last(rt: HostRuntime) {
    let large = Refusal::Number { row: 0, column: 1 };
    assert_eq!(rt; refusal(b"1 1 1 1 12 2 1000001 0 9999999 0"), Some(large));
    assert_eq!(rt; refusal(b"1 1 1 1 12 2 0 0 1 -1000001"), Some(large));
    assert_eq!(rt;
        refusal(b"1 1 1 0 12 2 1000001 0 0"),
        Some(Refusal::Listing)
    );
}

#[test]
fn a_tree_is_shown(rt: HostRuntime) -> Result<(), Fail> {
    let zero = [0; 10];
    let half = [1, 0, 0, 0, -1, 0, 0, 0, 0, 0];
    let nodes = [
        Node::Head { n: 1, p: 1 },
        Node::Split([-1, 0, 0, 0, 0, 0, 0, 0, 0, 0]),
        Node::Leaf([zero; 6]),
        Node::New {
            d: 2,
            form: [1, 0, 0, 0, 0, 0, 0, 0, 0, 0],
        },
        Node::Leaf([half, zero, zero, zero, zero, zero]),
    ];
    let shown = TreeText {
        nodes: &nodes,
        steps: 12,
    };
    let text = "head 1 1
if -1 0 0 0 0 0 0 0 0 0
leaf
at 0 0 0 0 0 0 0 0 0 0
new 2 1 0 0 0 0 0 0 0 0 0
leaf
at 1 0 0 0 -1 0 0 0 0 0
steps 12
";
    assert_eq!(rt; shown.to_string(rt.alloc())?.as_str(), text);
    Ok(())
}

#[test]
fn no_point_is_shown(rt: HostRuntime) -> Result<(), Fail> {
    let nodes = [
        Node::Head { n: 2, p: 0 },
        Node::Keep([0, 0, 0, 0, 0, 0, 0, 0, 0, -2147483648]),
        Node::None,
    ];
    let none = TreeText {
        nodes: &nodes,
        steps: 0,
    };
    let text = "head 2 0
keep 0 0 0 0 0 0 0 0 0 -2147483648
none
steps 0
";
    assert_eq!(rt; none.to_string(rt.alloc())?.as_str(), text);
    Ok(())
}

#[test]
fn a_refusal_is_shown(rt: HostRuntime) -> Result<(), Fail> {
    let text = format!(in rt.alloc(); "{}", RefusalText(Refusal::Counts))?;
    assert_eq!(rt; text.as_str(), "refused 11\n");
    Ok(())
}

#[test]
fn fuel_is_spent_in_a_test(rt: HostRuntime) -> Result<(), Fail> {
    let table = vec![in rt.alloc(); Node::None; 64]?;
    let mut sheet = Sheet::new(NodeStore::new(table));
    let mut work = [Node::None; 64];
    match solve_text(&mut sheet, b"1 1 1 0 11 2 -1 0", &mut work) {
        Err(refusal) => {
            assert_eq!(rt;
                refusal,
                Refusal::FuelSpent(Met {
                    steps: 11,
                    place: Place::Test,
                })
            );
            Ok(())
        },
        Ok(_) => Err(Fail::new("it has fuel for eleven steps")),
    }
}

#[test]
fn a_work_table_of_four_nodes_is_full(rt: HostRuntime) -> Result<(), Fail> {
    let table = vec![in rt.alloc(); Node::None; 64]?;
    let mut sheet = Sheet::new(NodeStore::new(table));
    let mut work = [Node::None; 4];
    match solve_text(&mut sheet, b"1 1 1 0 12 2 -1 0", &mut work) {
        Err(refusal) => {
            assert_eq!(rt;
                refusal,
                Refusal::WorkFull(Met {
                    steps: 12,
                    place: Place::Node,
                })
            );
            Ok(())
        },
        Ok(_) => Err(Fail::new("the tree has five nodes")),
    }
}
