// Rules and records as a box file has them. Not by `Display`: they write into bytes that a caller goes on with, by `push_named` and
// `push_quoted`, whose contracts say what holds of the bytes added.
use crate::names::{push_named, push_number};
use crate::quote::push_quoted;
use crate::value::{ClassText, Name, RuleText, StepText, Vocabulary};
use record::index::Entry as Place;
use record::text::text;
use std::alloc::AllocError;
use table::states::holds;

// Writes the members of a set, by their names, with something between them.
fn push_members(
    out: &mut Vec<u8>,
    set: u64,
    names: &[Name],
    between: &[u8],
) -> Result<(), AllocError> {
    let mut members = (0..64u8).filter(|member| holds(set, *member));
    if let Some(first) = members.next() {
        push_named(out, names, first as u16)?;
    }
    for member in members {
        out.extend_from_slice(between)?;
        push_named(out, names, member as u16)?;
    }
    Ok(())
}

// Writes a class.
fn push_class(out: &mut Vec<u8>, class: ClassText, kinds: &[Name]) -> Result<(), AllocError> {
    match class {
        ClassText::Mask(bits) => {
            out.push(b'{')?;
            push_members(out, bits, kinds, b", ")?;
            out.push(b'}')?;
            Ok(())
        }
        ClassText::Range { first, last } => {
            push_named(out, kinds, first)?;
            if first != last {
                out.extend_from_slice(b"..")?;
                push_named(out, kinds, last)?;
            }
            Ok(())
        }
    }
}

// Writes a rule.
pub(crate) fn push_rule(
    out: &mut Vec<u8>,
    rule: RuleText,
    vocabulary: &Vocabulary,
) -> Result<(), AllocError> {
    let from = rule.from as u16;
    let to = rule.to as u16;
    match rule.step {
        StepText::Empty => {
            out.extend_from_slice(b"empty ")?;
            push_number(out, from)?;
            out.extend_from_slice(b" ")?;
            push_number(out, to)
        }
        StepText::Node {
            class,
            inside,
            marks,
        } => {
            out.extend_from_slice(b"rule ")?;
            push_number(out, from)?;
            out.extend_from_slice(b":")?;
            push_class(out, class, &vocabulary.kinds)?;
            out.extend_from_slice(b"[")?;
            push_number(out, inside as u16)?;
            out.extend_from_slice(b"]")?;
            push_number(out, to)?;
            if marks != 0 {
                out.extend_from_slice(b" marks ")?;
                push_members(out, marks as u64, &vocabulary.marks, b" ")?;
            }
            Ok(())
        }
    }
}

// Begins a line so many levels deep.
fn push_indent(out: &mut Vec<u8>, levels: usize) -> Result<(), AllocError> {
    for _ in 0..levels {
        out.extend_from_slice(b"  ")?;
    }
    out.extend_from_slice(b"  ")
}

// Closes the nodes that end before an offset.
fn close(out: &mut Vec<u8>, ends: &mut Vec<usize>, offset: usize) -> Result<(), AllocError> {
    while let Some(_) = ends.pop_if(|end| *end <= offset) {
        push_indent(out, ends.len())?;
        out.extend_from_slice(b"}\n")?;
    }
    Ok(())
}

// Writes the line of a node.
fn push_node(
    out: &mut Vec<u8>,
    bytes: &[u8],
    place: &Place,
    kinds: &[Name],
) -> Result<(), AllocError> {
    push_named(out, kinds, place.node.kind)?;
    let words = text(bytes, place.offset).unwrap_or_default();
    if !words.is_empty() {
        out.push(b' ')?;
        push_quoted(out, words)?;
    }
    if place.node.inside != 0 {
        out.extend_from_slice(b" {")?;
    }
    out.extend_from_slice(b"\n")
}

// Writes a record as nested nodes, by its index.
pub(crate) fn push_record(
    out: &mut Vec<u8>,
    name: &str,
    bytes: &[u8],
    index: &[Place],
    vocabulary: &Vocabulary,
) -> Result<(), AllocError> {
    out.extend_from_slice(b"record ")?;
    out.extend_from_slice(name.as_bytes())?;
    out.extend_from_slice(b"\n")?;
    let mut ends: Vec<usize> = Vec::new(*out.allocator());
    for place in index.iter().rev() {
        close(out, &mut ends, place.offset)?;
        push_indent(out, ends.len())?;
        push_node(out, bytes, place, &vocabulary.kinds)?;
        if place.node.inside != 0 {
            ends.push(place.offset.saturating_add(place.size))?;
        }
    }
    close(out, &mut ends, usize::MAX)?;
    out.extend_from_slice(b"end\n")
}
