ghost use Rattle.std.specs.Prelude.{◌≡◌, slice_index_or};
ghost use Rattle.sets.specs.Members.{has};
ghost use Rattle.sets.specs.Sums.{total};
ghost use Rattle.cell.specs.SumLaws.{SumLaws};

use crate::kind::Cell;
use sets::SmallSet;

/// The sum of the cells at the places of a set. A place past the end of `cells` adds nothing.
pub fn sum_over<C: Cell>(cells: &[C], places: SmallSet) -> C
    ensures value { result ≡ total C.Cell.zero C.Cell.sum 64 (has places) (λ i. slice_index_or cells.now i C.Cell.zero) }
    ensures laws { SumLaws C.Cell.zero C.Cell.sum }
{
    let mut sum = C::zero_cell();
    for place in places.iter() {
        if let Some(cell) = cells.get(place) {
            sum = sum.plus(*cell);
        }
    }
    sum
}
