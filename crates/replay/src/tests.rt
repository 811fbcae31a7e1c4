use crate::stop::{Stop, Stopped};
use crate::work::Work;
use boxes::shelf::{PatternEntry, RecordEntry, Shelf, Spot};
use boxes::stage::find::Formed;
use boxes::stage::locate::Query;
use notation::value::{
    ClassText, Entry, Layout, PatternText, RecordText, RuleText, StepText, TableText,
};
use std::alloc::{AllocError, Global};
use std::test::Fail;
use table::mask::Mask;
use table::rule::{Rule, Step};

fn rule(from: u8, bits: u64, inside: u8, to: u8, marks: u16) -> RuleText {
    RuleText {
        from,
        to,
        step: StepText::Node {
            class: ClassText::Mask(bits),
            inside,
            marks,
        },
        line: 0,
    }
}

// A form: nodes of kind 2 with nothing inside, so many as its to state allows: state 1 one, state 0 any number.
fn form(heap: Global, bits: u64, to: u8) -> Result<TableText, AllocError> {
    Ok(TableText {
        starts: 1,
        finals: 3,
        rules: vec![in heap; rule(0, bits, 1, to, 0)]?,
        line: 0,
    })
}

// A pattern that marks the last node of kind 2 before others of kind 2, and a record of one such node.
fn entries(heap: Global) -> Result<Vec<Entry>, AllocError> {
    let table = TableText {
        starts: 1,
        finals: 6,
        rules: vec![in heap;
            rule(0, 14, 2, 0, 0),
            rule(0, 4, 2, 1, 1),
            rule(1, 4, 2, 1, 0),
        ]?,
        line: 0,
    };
    let pattern = PatternText {
        name: String::from_str(heap, "depth")?,
        table,
    };
    let record = RecordText {
        name: String::from_str(heap, "survey")?,
        bytes: vec![in heap; 6u8, 0, 0, 0, 2, 0, 2, 0, 0x31, 0x32]?,
        layout: Layout::Hex,
        line: 0,
    };
    let mut all = Vec::new(heap);
    all.push(Entry::Pattern(pattern))?;
    all.push(Entry::Record(record))?;
    Ok(all)
}

// The nodes that mark 0 of the pattern marks in the record, after a replay; or where it stopped.
fn spots(heap: Global, form: &TableText) -> Result<Result<[Spot; 2], Stopped>, Fail> {
    let mut rules = [Rule {
        from: 0,
        to: 0,
        step: Step::Empty,
    }; 8];
    let mut patterns = [PatternEntry::default(); 2];
    let mut records = [RecordEntry::default(); 2];
    let mut bytes = [0u8; 16];
    let mut shelf: Shelf<Mask> = Shelf {
        rules: &mut rules,
        patterns: &mut patterns,
        records: &mut records,
        bytes: &mut bytes,
    };
    let mut work = Work::new(heap)?;
    let entries = entries(heap)?;
    let laid = match work.replay(&mut shelf, form, &entries) {
        Ok(laid) => laid,
        Err(stopped) => return Ok(Err(stopped)),
    };
    let mut found = [Spot {
        offset: 99,
        size: 99,
    }; 2];
    let query = Query {
        pattern: 0,
        record: 0,
        mark: 0,
    };
    match laid.find(&shelf, query, &mut work.list, &mut work.scratch, &mut found) {
        Ok(_) => Ok(Ok(found)),
        Err(_) => Err(Fail::new("find refuses")),
    }
}

#[test]
fn a_box_file_is_replayed(rt: HostRuntime) -> Result<(), Fail> {
    let form = form(rt.alloc(), 4, 1)?;
    match spots(rt.alloc(), &form)? {
        Ok(found) => {
            assert!(rt; found[0].offset == 0 && found[0].size == 10);
            assert!(rt; found[1].offset == 99);
            Ok(())
        }
        Err(_) => Err(Fail::new("the replay stopped")),
    }
}

#[test]
fn a_pattern_with_two_readings_stops_a_replay(rt: HostRuntime) -> Result<(), Fail> {
    let form = form(rt.alloc(), 4, 0)?;
    match spots(rt.alloc(), &form)? {
        Err(
            Stopped {
                entry: Some(0),
                stop: Stop::Refused(fault),
            },
        ) => {
            assert_eq!(rt; fault.number(), 12);
            Ok(())
        }
        _ => Err(Fail::new("the pattern is not refused")),
    }
}

#[test]
fn a_class_without_kinds_stops_a_replay(rt: HostRuntime) -> Result<(), Fail> {
    let form = form(rt.alloc(), 0, 1)?;
    match spots(rt.alloc(), &form)? {
        Err(
            Stopped {
                entry: None,
                stop: Stop::BadClass { rule, fault },
            },
        ) => {
            assert_eq!(rt; rule, 0);
            assert_eq!(rt; fault.number(), 17);
            Ok(())
        }
        _ => Err(Fail::new("the form is not stopped at")),
    }
}
