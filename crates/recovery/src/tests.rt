use crate::{Layout, Unreadable, worked_missing};
use sets::SmallSet;
use std::test::Fail;
use table::{Table, table_d};

fn set(units: &[usize]) -> SmallSet {
    units
        .iter()
        .fold(SmallSet::empty(), |set, unit| set.with(*unit))
}

// Table D: record units 0 to 2, check units 3 to 5; the groups are 3 0 1, 4 0 2 and 5 1 2.
#[test]
fn one_answer_is_possible_on_table_d(rt: HostRuntime) -> Result<(), Fail> {
    let layout = Layout::new(Table::read(&table_d())?);
    assert_eq!(rt; layout.units(), set(&[0, 1, 2, 3, 4, 5]));
    assert_eq!(rt; layout.group(2), Some(set(&[1, 2, 5])));
    assert_eq!(rt; layout.group(3), None);
    for (missing, unit, solution) in [
        (set(&[]), 0, Ok(set(&[0]))),
        (set(&[3]), 3, Ok(set(&[0, 1]))),
        (set(&[0, 3]), 0, Ok(set(&[2, 4]))),
        (set(&[0, 3]), 3, Ok(set(&[1, 2, 4]))),
        (set(&[0, 3, 4]), 0, Err(Unreadable::Lost(set(&[0, 3, 4])))),
        (set(&[0, 1, 2]), 1, Err(Unreadable::Lost(set(&[0, 1, 2])))),
        (set(&[0]), 6, Err(Unreadable::NoUnit)),
        (set(&[63]), 63, Err(Unreadable::NoUnit)),
        (set(&[]), usize::MAX, Err(Unreadable::NoUnit)),
    ] {
        assert_eq!(rt; layout.solve::<u8>(missing, unit), solution);
    }
    assert_eq!(rt; layout.lost::<u8>(set(&[0, 3, 4])), set(&[0]));
    Ok(())
}

const TABLE_F: [u8; 28] = [
    3, 7, 7, 3, 7, 0, 1, 3, 1, 2, 4, 2, 3, 5, 3, 4, 6, 0, 4, 5, 1, 5, 6, 0, 2, 6, 1, 2,
];

const TABLE_A: [u8; 43] = [
    3, 9, 12, 3, 12, 0, 1, 2, 3, 4, 5, 6, 7, 8, 0, 3, 6, 1, 4, 7, 2, 5, 8, 0, 4, 8, 1, 5, 6, 2, 3,
    7, 0, 5, 7, 1, 3, 8, 2, 4, 6, 1, 2,
];

#[test]
fn worked_cases_come_out_as_told(rt: HostRuntime) -> Result<(), Fail> {
    let missing = worked_missing::<u8>();
    let of_f = set(&missing.of_f);
    let f = Layout::new(Table::read(&TABLE_F)?);
    assert_eq!(rt; f.solve::<u8>(of_f, 1), Err(Unreadable::Lost(of_f)));
    let a = Layout::new(Table::read(&TABLE_A)?);
    assert_eq!(rt; a.lost::<u8>(set(&missing.of_a)), SmallSet::empty());
    Ok(())
}
