ghost use Rattle.std.specs.Prelude.{◌≡◌, Decides};
ghost use Rattle.cell.specs.Kinds.{Laws};

/// A kind of cells: what a place holds. Cells have a sum, under which a cell plus itself is the zero cell.
pub trait Cell: Copy {
    // The zero cell.
    ghost zero: { Self };

    // The sum of two cells.
    ghost sum: { Self → Self → Self };

    // What each kind owes.
    ghost laws: { Laws zero sum };

    /// The zero cell, which alters nothing.
    fn zero_cell() -> Self
        ensures { result ≡ zero };

    /// The sum of two cells.
    fn plus(self, other: Self) -> Self
        ensures { result ≡ sum self other };

    /// Whether two cells are equal. A method, since code over any kind of cells knows of `==` only that it is an
    /// equivalence.
    fn same(&self, other: &Self) -> bool
        ensures { Decides result (self.now ≡ other.now) };
}
