// A small box, worked from lay to seal: `archive example`.
use boxes::fault::Fault;
use boxes::limits::SCRATCH_NEEDS;
use boxes::promise::promise;
use boxes::shelf::{PatternEntry, RecordEntry, Shelf, Spot};
use boxes::stage::find::Formed;
use boxes::stage::locate::Query;
use boxes::stage::{LaidBox, NewBox, SealedBox};
use examine::line::Line;
use examine::size::most_lines;
use record::index::Entry;
use record::limits::MAX_NODES;
use std::alloc::Global;
use std::fmt::Write;
use table::mask::Mask;
use table::rule::{Rule, Step};
use table::table::Table;

// One node of kind 2 with the text "12".
const D: [u8; 10] = [6, 0, 0, 0, 2, 0, 2, 0, 0x31, 0x32];

// A node rule. The tests of `cases` have the like, but a program lists no crate of tests.
fn rule(from: u8, kinds: u64, inside: u8, to: u8, marks: u16) -> Rule<Mask> {
    Rule {
        from,
        to,
        step: Step::Node {
            class: Mask { bits: kinds },
            inside,
            marks,
        },
    }
}

// The form: one node of kind 2 with nothing inside.
fn form_rules() -> [Rule<Mask>; 1] {
    [rule(0, 4, 1, 1, 0)]
}

// The pattern: nodes of kinds 1 to 3, then one of kind 2 with mark 0, then nodes of kind 2.
fn pattern_rules() -> [Rule<Mask>; 3] {
    [
        rule(0, 14, 2, 0, 0),
        rule(0, 4, 2, 1, 1),
        rule(1, 4, 2, 1, 0),
    ]
}

// What a refusal says, by its numbers.
fn refused(heap: Global, call: &str, fault: &Fault) -> anyhow::Result<String> {
    let number = fault.number();
    let place = fault.place();
    Ok(format!(in heap; "{call} is refused by number {number}, place {place}.\n")?)
}

// What find lists for a mark, as a sentence.
fn found(
    heap: Global,
    sealed: &SealedBox,
    shelf: &Shelf<Mask>,
    mark: u8,
) -> anyhow::Result<String> {
    let mut list = vec![in heap; Entry::default(); MAX_NODES]?;
    let mut scratch = vec![in heap; 0u64; SCRATCH_NEEDS]?;
    let mut spots = [Spot::default(); 4];
    let query = Query {
        pattern: 0,
        record: 0,
        mark,
    };
    let mut out = format!(in heap; "Mark {mark} of pattern 0 in record 0:")?;
    match sealed.find(shelf, query, &mut list, &mut scratch, &mut spots) {
        Ok(count) => {
            for spot in spots.iter().take(count) {
                write!(out, " ({}, {})", spot.offset, spot.size)?;
            }
            if count == 0 {
                out.push_str(" no node")?;
            }
            out.push_str(".\n")?;
        }
        Err(fault) => out.push_str(refused(heap, " find", &fault)?.as_str())?,
    }
    Ok(out)
}

// Admits the pattern, files the record, seals the box and asks for two marks.
fn fill(heap: Global, laid: LaidBox, shelf: &mut Shelf<Mask>) -> anyhow::Result<String> {
    // the form has states 0 and 1, the pattern 0 to 2
    let lines = most_lines(2, 3);
    let mut sheet = vec![in heap; Line::default(); lines]?;
    let mut helper = vec![in heap; 0u32; lines]?;
    let mut list = vec![in heap; Entry::default(); MAX_NODES]?;
    let mut scratch = vec![in heap; 0u64; SCRATCH_NEEDS]?;
    let rules = pattern_rules();
    let pattern = Table {
        starts: 1,
        finals: 6,
        rules: &rules,
    };
    let laid = match laid.admit(shelf, pattern, &mut sheet, &mut helper) {
        Ok(laid) => laid,
        Err(back) => return refused(heap, "admit", &back.fault),
    };
    let sealed = match laid.file(shelf, &D, &mut list, &mut scratch) {
        Ok(laid) => laid.seal(),
        Err(back) => return refused(heap, "file", &back.fault),
    };
    let mut out = String::from_str(
        heap,
        "The pattern is admitted: no record that fits the form, however large, has two readings under it.\nA record of 10 bytes is filed. The box is sealed.\n",
    )?;
    out.push_str(found(heap, &sealed, shelf, 0)?.as_str())?;
    out.push_str(found(heap, &sealed, shelf, 1)?.as_str())?;
    Ok(out)
}

// The whole example, told in sentences.
pub(crate) fn tell(heap: Global) -> anyhow::Result<String> {
    // what is proved of every history of calls, this one among them
    promise::<Mask>();
    let blank = rule(0, 1, 0, 0, 0);
    let mut rules = [blank; 8];
    let mut patterns = [PatternEntry::default(); 2];
    let mut records = [RecordEntry::default(); 2];
    let mut bytes = [0u8; 64];
    let mut shelf = Shelf {
        rules: &mut rules,
        patterns: &mut patterns,
        records: &mut records,
        bytes: &mut bytes,
    };
    let form = form_rules();
    let table = Table {
        starts: 1,
        finals: 2,
        rules: &form,
    };
    let new = NewBox {};
    match new.lay(&mut shelf, table) {
        Ok(laid) => {
            let mut out = String::from_str(
                heap,
                "A form is laid: one node of kind 2 with nothing inside.\n",
            )?;
            out.push_str(fill(heap, laid, &mut shelf)?.as_str())?;
            Ok(out)
        }
        Err(back) => refused(heap, "lay", &back.fault),
    }
}
