// Elimination over GF(2). A row is a set of units; the sum of two rows is their symmetric difference.
ghost use Rattle.std.specs.Prelude.{◌≡◌, ℕ, ◌<◌, ◌≤◌, false, length};
ghost use Rattle.sets.specs.Members.{has};
ghost use Rattle.recovery.specs.Groups.{no_units};
ghost use Rattle.recovery.specs.Rows.{RowWith, Cleared, Pivots, Echelon, Balanced};

use cell::Cell;
use sets::SmallSet;

// The place of a row that has `unit`, among those from `from` on.
pub(crate) fn row_with(rows: &[SmallSet], from: usize, unit: usize) -> Option<usize>
    ensures { RowWith rows.now from unit result }
{
    (from..rows.len()).find(|place| rows[*place].contains(unit))
}

// Takes `unit` out of the rows after the pivot, which has it, by adding the pivot to each that has it.
fn clear(rows: &mut [SmallSet], pivot: usize, unit: usize)
    requires { pivot < length rows.old }
    ensures { Cleared pivot unit rows.old rows.new }
{
    let row = rows[pivot];
    for other in rows[pivot + 1..].iter_mut() {
        if other.contains(unit) {
            *other = other.symmetric_difference(row);
        }
    }
}

// Brings the rows into echelon form for the units `asked`, in ascending order, and answers how many pivots there are.
// They come first; the rows after them have none of these units.
pub(crate) fn eliminate<C: Cell>(rows: &mut [SmallSet], asked: SmallSet) -> usize
    ensures { Echelon C.Cell.zero C.Cell.sum rows.old asked no_units rows.new result }
{
    let mut rank = 0;
    for unit in asked.iter() {
        if let Some(place) = row_with(rows, rank, unit) {
            rows.swap(rank, place);
            clear(rows, rank, unit);
            rank += 1;
        }
    }
    rank
}

// `unit` with leading units of the pivots, an even number of units of each pivot. Goes from the last pivot to the first,
// since the leading unit of a pivot may be in the pivots before it, and is in none after it.
pub(crate) fn balance(pivots: &[SmallSet], asked: SmallSet, unit: usize) -> SmallSet
    requires shape { Pivots asked pivots.now (length pivots.now) }
    requires unit { (unit < 64) × (has asked unit ≡ false) }
    ensures { Balanced asked pivots.now (length pivots.now) unit 0 result }
{
    let mut set = SmallSet::of(unit);
    for pivot in pivots.iter().rev() {
        if set.meets_oddly(*pivot) {
            if let Some(lead) = pivot.intersection(asked).least() {
                set = set.with(lead);
            }
        }
    }
    set
}
