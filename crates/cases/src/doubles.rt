use crate::rules::{slips, takes};
use examine::examine::examine;
use examine::line::Line;
use examine::sheet::Sheet;
use record::run::Runs;
use std::test::Fail;
use table::fault::{Cause, Fault};
use table::fits::fits;
use table::mask::Mask;
use table::readings::readings;
use table::table::Table;

// The kind 2, and the kinds 1 to 3.
const TWO: u64 = 4;

const FEW: u64 = 14;

// Examines, and says of a double whether it fits and has two readings as the sheet shows it.
fn doubled(form: Table<Mask>, pattern: Table<Mask>) -> Result<bool, Fault> {
    let mut sheet = [Line::default(); 55];
    let mut helper = [7; 55];
    let Err(fault) = examine(form, pattern, &mut sheet, &mut helper) else {
        return Ok(false);
    };
    let Cause::Double = fault.cause else {
        return Err(fault);
    };
    let run = Sheet {
        lines: &sheet,
        top: fault.place,
    };
    let mut scratch = [0; 165];
    let fit = fits(form, &run, &mut scratch)?;
    let count = readings(pattern, &run, &mut scratch)?;
    Ok(fit && count == 2)
}

#[test]
fn doubles_are_shown(rt: HostRuntime) -> Result<(), Fail> {
    let f = [takes(0, TWO, 1, 0, 0)];
    let g = [takes(0, TWO, 1, 1, 0)];
    let f = Table {
        starts: 1,
        finals: 3,
        rules: &f,
    };
    let g = Table {
        starts: 1,
        finals: 2,
        rules: &g,
    };
    let p = [
        takes(0, FEW, 2, 0, 0),
        takes(0, TWO, 2, 1, 1),
        takes(1, TWO, 2, 1, 0),
    ];
    let p = Table {
        starts: 1,
        finals: 6,
        rules: &p,
    };
    let e = [slips(0, 0)];
    let e = Table {
        starts: 1,
        finals: 1,
        rules: &e,
    };
    let m = [takes(0, TWO, 1, 1, 1), takes(0, TWO, 1, 1, 1)];
    let m = Table {
        starts: 1,
        finals: 2,
        rules: &m,
    };
    assert!(rt; doubled(f, p)?);
    assert!(rt; doubled(f, e)?);
    assert!(rt; doubled(g, m)?);
    Ok(())
}

// P examined under F with buffers of two lengths: the cause of the refusal, and its place.
fn examined(lines: usize, numbers: usize) -> Option<(Cause, usize)> {
    let f = [takes(0, TWO, 1, 0, 0)];
    let p = [
        takes(0, FEW, 2, 0, 0),
        takes(0, TWO, 2, 1, 1),
        takes(1, TWO, 2, 1, 0),
    ];
    let form = Table {
        starts: 1,
        finals: 3,
        rules: &f,
    };
    let pattern = Table {
        starts: 1,
        finals: 6,
        rules: &p,
    };
    let mut sheet = [Line::default(); 60];
    let mut helper = [7; 60];
    if lines > 60 || numbers > 60 {
        return None;
    }
    match examine(form, pattern, &mut sheet[0..lines], &mut helper[0..numbers]) {
        Ok(()) => None,
        Err(fault) => Some((fault.cause, fault.place)),
    }
}

#[test]
fn buffers_are_measured(rt: HostRuntime) -> Result<(), Fail> {
    assert_eq!(rt; examined(54, 55), Some((Cause::ShortBuffer, 55)));
    assert_eq!(rt; examined(55, 54), Some((Cause::ShortBuffer, 55)));
    match examined(55, 55) {
        Some((Cause::Double, _)) => Ok(()),
        _ => Err(Fail::new("no double")),
    }
}

// How many levels a shown run has, if each of its nodes is alone in its run.
fn levels(sheet: &[Line], top: usize) -> usize {
    let run = Sheet { lines: sheet, top };
    let mut place = top;
    let mut levels: usize = 0;
    for _ in 0..100u8 {
        match run.look(place) {
            Some(node) => {
                levels = levels.saturating_add(1);
                place = node.inside;
            }
            None => return levels,
        }
    }
    levels
}

// The form asks for a multiple of 13 levels, and the pattern has two readings at multiples of 5.
#[test]
fn a_double_of_65_levels_is_found(rt: HostRuntime) -> Result<(), Fail> {
    let f = [
        takes(0, TWO, 1, 13, 0),
        takes(1, TWO, 2, 13, 0),
        takes(2, TWO, 3, 13, 0),
        takes(3, TWO, 4, 13, 0),
        takes(4, TWO, 5, 13, 0),
        takes(5, TWO, 6, 13, 0),
        takes(6, TWO, 7, 13, 0),
        takes(7, TWO, 8, 13, 0),
        takes(8, TWO, 9, 13, 0),
        takes(9, TWO, 10, 13, 0),
        takes(10, TWO, 11, 13, 0),
        takes(11, TWO, 12, 13, 0),
        takes(12, TWO, 0, 13, 0),
        takes(14, TWO, 1, 13, 0),
    ];
    let p = [
        takes(0, TWO, 1, 5, 0),
        takes(1, TWO, 2, 5, 0),
        takes(2, TWO, 3, 5, 0),
        takes(3, TWO, 4, 5, 0),
        takes(4, TWO, 0, 5, 0),
        slips(0, 5),
    ];
    let form = Table {
        starts: 1 << 14,
        finals: 1 | 1 << 13,
        rules: &f,
    };
    let pattern = Table {
        starts: 1,
        finals: 1 | 1 << 5,
        rules: &p,
    };
    let mut sheet = [Line::default(); 1621];
    let mut helper = [0; 1621];
    match examine(form, pattern, &mut sheet, &mut helper) {
        Ok(()) => Err(Fail::new("single")),
        Err(fault) => {
            assert_eq!(rt; fault.cause, Cause::Double);
            assert_eq!(rt; levels(&sheet, fault.place), 65);
            Ok(())
        }
    }
}
