ghost use Rattle.std.specs.Prelude.{bit_xor};
ghost use Rattle.cell.specs.Bytes.{byte_laws};

use crate::kind::Cell;

// Bytes are summed by exclusive or.
impl Cell for u8 {
    ghost zero = { 0 };

    ghost sum = { bit_xor };

    ghost laws = { byte_laws };

    fn zero_cell() -> u8 {
        0
    }

    fn plus(self, other: u8) -> u8 {
        self ^ other
    }

    fn same(&self, other: &u8) -> bool {
        *self == *other
    }
}
