use crate::{Grade, Narrow, NoGrade, Table, TableFault, table_d};
use std::test::Fail;

// The fault of D with byte `at` set to `byte`.
fn damaged(at: usize, byte: u8) -> Option<TableFault> {
    let mut bytes = table_d();
    if at < 13 {
        bytes[at] = byte;
    }
    Table::read(&bytes).err()
}

#[test]
fn each_byte_at_and_past_its_edges(rt: HostRuntime) {
    let cases = [
        (0, 3, None),
        (0, 2, Some(TableFault::Size { at: 0 })),
        (0, 4, Some(TableFault::Size { at: 0 })),
        (1, 1, Some(TableFault::Size { at: 1 })),
        (1, 2, Some(TableFault::Point { at: 8 })),
        (1, 40, Some(TableFault::Cover { point: 0 })),
        (1, 41, Some(TableFault::Size { at: 1 })),
        (2, 0, Some(TableFault::Size { at: 2 })),
        (2, 61, Some(TableFault::Size { at: 4 })),
        (2, 62, Some(TableFault::Size { at: 2 })),
        (3, 1, Some(TableFault::Size { at: 3 })),
        (3, 3, Some(TableFault::Point { at: 7 })),
        (3, 4, Some(TableFault::Size { at: 3 })),
        (4, 2, Some(TableFault::Size { at: 4 })),
        (10, 1, Some(TableFault::Point { at: 10 })),
        (10, 3, Some(TableFault::Point { at: 10 })),
        (11, 0, Some(TableFault::Size { at: 11 })),
        (11, 2, Some(TableFault::Size { at: 11 })),
        (12, 0, Some(TableFault::Size { at: 12 })),
        (12, 1, None),
        (12, 3, Some(TableFault::Size { at: 12 })),
    ];
    for (at, byte, fault) in cases {
        assert_eq!(rt; damaged(at, byte), fault);
    }
}

#[test]
fn a_table_comes_back(rt: HostRuntime) -> Result<(), Fail> {
    let mut out = [7; 15];
    let table = Table::read(&table_d())?;
    assert_eq!(rt; table.load(), 2);
    assert_eq!(rt; table.write(&mut out[0..12]), Err(Narrow));
    assert_eq!(rt; out, [7; 15]);
    assert_eq!(rt; table.write(&mut out), Ok(13));
    assert_eq!(rt; out, [3, 3, 3, 2, 3, 0, 1, 0, 2, 1, 2, 1, 2, 7, 7]);
    assert!(rt; table.block_has(2, 1) && !table.block_has(2, 0) && !table.block_has(3, 1));
    Ok(())
}

#[test]
fn grades_have_numbers(rt: HostRuntime) {
    assert_eq!(rt; u8::from(Grade::Packing), 1);
    assert_eq!(rt; Grade::try_from(2), Ok(Grade::Steiner));
    assert_eq!(rt; Grade::try_from(3), Err(NoGrade));
}

#[test]
fn refusals_print_themselves(rt: HostRuntime) -> Result<(), Fail> {
    let short = TableFault::Short { length: 12 };
    let narrow = Narrow;
    let text = format!(in rt.alloc(); "{short}; {narrow}")?;
    assert_eq!(rt;
        text.as_str(),
        "SHORT, number 1, place 12; NARROW, number 21"
    );
    Ok(())
}
