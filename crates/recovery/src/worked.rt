ghost use Rattle.std.specs.Prelude.{◌≡◌};
ghost use Rattle.recovery.specs.Worked.{missing_f, missing_a, WorkedCases};

use cell::Cell;

/// The record units that are missing in the worked cases, of table F and of table A.
#[derive(Clone, Copy)]
pub struct WorkedMissing {
    pub of_f: [usize; 4],
    pub of_a: [usize; 9],
}

/// What is missing in the worked cases. Its contract asks for these cases, over any kind of cells: those of reading a
/// table, that record unit 1 of F is lost, and that every record unit of A is good or has a recipe.
pub fn worked_missing<C: Cell>() -> WorkedMissing
    ensures of_f { result.of_f ≡ missing_f }
    ensures of_a { result.of_a ≡ missing_a }
    ensures worked { WorkedCases C.Cell.zero C.Cell.sum }
{
    WorkedMissing {
        of_f: [1, 2, 3, 5],
        of_a: [1, 2, 4, 5, 6, 7, 9, 10, 11],
    }
}
