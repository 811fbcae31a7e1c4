use record::fault::{Cause, Fault, Flaw};
use record::index::{Entry, index};
use record::indexed::Indexed;
use record::limits::MAX_NODES;
use record::run::Runs;
use record::text::text;
use std::alloc::{AllocError, Global};
use std::test::Fail;

// One node of kind 2 with the text "12".
const D: [u8; 10] = [6, 0, 0, 0, 2, 0, 2, 0, 0x31, 0x32];

// A node's length, kind and text size.
fn push_head(bytes: &mut Vec<u8>, length: usize, kind: u16, text: usize) -> Result<(), AllocError> {
    bytes.extend_from_slice(&((length & 0xffff_ffff) as u32).to_le_bytes())?;
    bytes.extend_from_slice(&kind.to_le_bytes())?;
    bytes.extend_from_slice(&((text & 0xffff) as u16).to_le_bytes())
}

// Nodes in one another, with further bytes inside the innermost.
fn nested(heap: Global, levels: usize, innermost: &[u8]) -> Result<Vec<u8>, AllocError> {
    let mut bytes = Vec::new(heap);
    for below in (0..levels).rev() {
        let inside = below.wrapping_mul(8).wrapping_add(innermost.len());
        push_head(&mut bytes, inside.wrapping_add(4), 1, 0)?;
    }
    bytes.extend_from_slice(innermost)?;
    Ok(bytes)
}

// Nodes after one another.
fn flat(heap: Global, nodes: usize) -> Result<Vec<u8>, AllocError> {
    let mut bytes = Vec::new(heap);
    for _ in 0..nodes {
        push_head(&mut bytes, 4, 1, 0)?;
    }
    Ok(bytes)
}

// One node with a text.
fn long(heap: Global, size: usize) -> Result<Vec<u8>, AllocError> {
    let mut bytes = Vec::new(heap);
    push_head(&mut bytes, size.wrapping_sub(4), 1, size.wrapping_sub(8))?;
    for _ in 8..size {
        bytes.push(0x20)?;
    }
    Ok(bytes)
}

fn count(bytes: &[u8]) -> Result<usize, Fault> {
    let mut list = [Entry::default(); MAX_NODES];
    index(bytes, &mut list)
}

fn flawed(flaw: Flaw, place: usize) -> Result<usize, Fault> {
    Err(Fault {
        cause: Cause::Flawed(flaw),
        place,
    })
}

#[test]
fn limits_fall_on_two_sides(rt: HostRuntime) -> Result<(), Fail> {
    let heap = rt.alloc();
    assert_eq!(rt; count(nested(heap, 64, &[])?.as_slice()), Ok(64));
    assert_eq!(rt;
        count(nested(heap, 65, &[])?.as_slice()),
        flawed(Flaw::TooDeep, 512)
    );
    assert_eq!(rt; count(flat(heap, 1024)?.as_slice()), Ok(1024));
    assert_eq!(rt;
        count(flat(heap, 1025)?.as_slice()),
        flawed(Flaw::TooMany, 8192)
    );
    assert_eq!(rt; count(long(heap, 16384)?.as_slice()), Ok(1));
    let too_long = Err(Fault {
        cause: Cause::TooLong,
        place: 0,
    });
    assert_eq!(rt; count(long(heap, 16385)?.as_slice()), too_long);
    Ok(())
}

#[test]
fn flaws_come_in_order(rt: HostRuntime) -> Result<(), Fail> {
    let heap = rt.alloc();
    assert_eq!(rt;
        count(nested(heap, 64, &[7])?.as_slice()),
        flawed(Flaw::TooDeep, 512)
    );
    assert_eq!(rt;
        count(nested(heap, 63, &[7])?.as_slice()),
        flawed(Flaw::CutShort, 504)
    );
    // the inner node runs past the outer one, but not past the record
    let past = [
        12, 0, 0, 0, 1, 0, 0, 0, 5, 0, 0, 0, 1, 0, 0, 0, 4, 0, 0, 0, 1, 0, 0, 0,
    ];
    assert_eq!(rt; count(&past), flawed(Flaw::CutShort, 8));
    assert_eq!(rt;
        count(&[4, 0, 0, 0, 0, 0, 1, 0]),
        flawed(Flaw::TextTooLong, 0)
    );
    Ok(())
}

#[test]
fn ten_bytes_are_one_node(rt: HostRuntime) {
    let mut list = [Entry::default(); MAX_NODES];
    assert_eq!(rt; index(&D, &mut list), Ok(1));
    assert!(rt; list[0].node.kind == 2 && list[0].offset == 0 && list[0].size == 10);
    let run = Indexed {
        list: &list,
        top: 5000,
    };
    assert_eq!(rt; run.top(), MAX_NODES);
    assert!(rt; run.look(1).is_some() && run.look(0).is_none() && run.look(1025).is_none());
    assert_eq!(rt; text(&D, 0).ok(), Some(&D[8..10]));
    let no_node = Fault {
        cause: Cause::NoNode,
        place: 3,
    };
    assert_eq!(rt; text(&D, 8).err(), Some(no_node));
    assert_eq!(rt; no_node.number(), 13);
    let short = Fault {
        cause: Cause::ShortList,
        place: MAX_NODES,
    };
    assert_eq!(rt; index(&D, &mut [Entry::default(); 1023]), Err(short));
}
