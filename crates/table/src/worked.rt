ghost use Rattle.std.specs.Prelude.{◌≡◌};
ghost use Rattle.table.specs.Worked.{D, WorkedTables};

/// The bytes of table D, the smallest example: three check units, and three record units with two points each. Its
/// contract asks for the worked cases of reading.
pub fn table_d() -> [u8; 13]
    ensures bytes { result ≡ D }
    ensures worked { WorkedTables }
{
    [3, 3, 3, 2, 3, 0, 1, 0, 2, 1, 2, 1, 2]
}
