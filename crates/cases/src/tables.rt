use crate::rules::{slips, takes};
use record::index::Entry;
use record::indexed::Indexed;
use record::run::Node;
use table::check::{check as check_table, state_count};
use table::class::Class;
use table::fault::{Cause, Fault, Role};
use table::fits::fits;
use table::marks::marks;
use table::mask::Mask;
use table::range::Range;
use table::readings::readings;
use table::table::Table;

// A node of kind 2 without inside, with this after place.
fn leaf(after: usize) -> Entry {
    Entry {
        node: Node {
            kind: 2,
            inside: 0,
            after,
        },
        offset: 0,
        size: 10,
    }
}

#[test]
fn classes(rt: HostRuntime) {
    assert!(rt; !Mask { bits: 6 }.has(64) && Mask { bits: 0 }.has(0));
    assert_eq!(rt;
        Mask { bits: 0 }.meet(&Mask { bits: 3 }),
        Some(Mask { bits: 1 })
    );
    assert!(rt; Range { first: 9, last: 3 }.has(9) && !Range { first: 9, last: 3 }.has(5));
    assert_eq!(rt;
        Range { first: 2, last: 8 }.meet(&Range {
            first: 5,
            last: 60000,
        },),
        Some(Range { first: 5, last: 8 })
    );
    assert!(rt; Mask::new(0).is_err() && Range::new(4, 3).is_err());
}

#[test]
fn checks(rt: HostRuntime) {
    let rules = [takes(0, 4, 1, 0, 0), slips(40, 2)];
    let table = Table {
        starts: 1,
        finals: 1 << 50,
        rules: &rules,
    };
    assert_eq!(rt; check_table(Role::Pattern, table), Ok(()));
    assert_eq!(rt;
        check_table(Role::Form, table),
        Err(Fault {
            role: Role::Form,
            cause: Cause::Bounds,
            place: 257,
        })
    );
    let low = Table {
        starts: 1,
        finals: 2,
        rules: &rules,
    };
    assert_eq!(rt;
        check_table(Role::Form, low),
        Err(Fault {
            role: Role::Form,
            cause: Cause::EmptyRule,
            place: 1,
        })
    );
    assert_eq!(rt; state_count(low), 41);
    assert_eq!(rt; state_count(table), 51);
}

#[test]
fn counts(rt: HostRuntime) {
    let list = [leaf(0), leaf(1)];
    let rules = [
        takes(0, 14, 2, 0, 0),
        takes(0, 4, 2, 1, 1),
        takes(1, 4, 2, 1, 0),
    ];
    let pattern = Table {
        starts: 1,
        finals: 6,
        rules: &rules,
    };
    let mut scratch = [0; 9];
    assert_eq!(rt;
        readings(
            pattern,
            &Indexed {
                list: &list,
                top: 2,
            },
            &mut scratch,
        ),
        Ok(2)
    );
    assert_eq!(rt;
        marks(
            pattern,
            &Indexed {
                list: &list,
                top: 1,
            },
            &mut scratch,
        ),
        Ok(1)
    );
    assert_eq!(rt; scratch[4], 1);
}

#[test]
fn cycles(rt: HostRuntime) {
    let cycle = [slips(0, 0)];
    let mut scratch = [0; 3];
    assert_eq!(rt;
        readings(
            Table {
                starts: 1,
                finals: 1,
                rules: &cycle,
            },
            &Indexed { list: &[], top: 0 },
            &mut scratch,
        ),
        Ok(2)
    );
}

#[test]
fn fitting(rt: HostRuntime) {
    let list = [leaf(0)];
    let rules = [takes(0, 4, 1, 0, 0)];
    let form = Table {
        starts: 1,
        finals: 3,
        rules: &rules,
    };
    let mut scratch = [0; 5];
    assert_eq!(rt;
        fits(
            form,
            &Indexed {
                list: &list,
                top: 0,
            },
            &mut scratch,
        ),
        Ok(true)
    );
    let fault = Fault {
        role: Role::Form,
        cause: Cause::ShortBuffer,
        place: 6,
    };
    assert_eq!(rt;
        fits(
            form,
            &Indexed {
                list: &list,
                top: 1,
            },
            &mut scratch,
        ),
        Err(fault)
    );
}
