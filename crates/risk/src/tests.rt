use crate::Risk;
use recovery::Layout;
use std::test::Fail;
use table::Table;

// Tables D and F, and one block of 8 of 40 points, for which there are too many sets to try.
#[test]
fn deadly_sets_are_counted(rt: HostRuntime) -> Result<(), Fail> {
    for (bytes, size, sets, deadly) in [
        (&[3, 3, 3, 2, 3, 0, 1, 0, 2, 1, 2, 1, 2][..], 3, 20, Some(4)),
        (
            &[
                3, 7, 7, 3, 7, 0, 1, 3, 1, 2, 4, 2, 3, 5, 3, 4, 6, 0, 4, 5, 1, 5, 6, 0, 2, 6, 1, 2,
            ][..],
            4,
            1001,
            Some(14),
        ),
        (
            &[3, 40, 1, 8, 1, 0, 1, 2, 3, 4, 5, 6, 7, 1, 1][..],
            9,
            350_343_565,
            None,
        ),
    ] {
        let risk = Risk::of(&Layout::new(Table::read(bytes)?));
        assert_eq!(rt; risk.size, size);
        assert_eq!(rt; risk.sets, sets);
        assert_eq!(rt; risk.deadly, deadly);
    }
    Ok(())
}
