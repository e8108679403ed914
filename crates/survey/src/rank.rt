ghost use Rattle.std.specs.Prelude.{◌≤◌, length};

use sets::SmallSet;

// Takes `lead` out of the vectors by adding `row`, which has it, to each that has it. (An elimination of the survey's own,
// since it judges that of `recovery`.)
fn clear(vectors: &mut [SmallSet], row: SmallSet, lead: usize) {
    for vector in vectors.iter_mut() {
        if vector.contains(lead) {
            *vector = vector.symmetric_difference(row);
        }
    }
}

/// How many of the vectors are independent over GF(2). They are changed on the way.
pub fn rank(vectors: &mut [SmallSet]) -> usize
    ensures { result ≤ length vectors.old }
{
    let mut rank = 0;
    let mut left = vectors;
    while let Some((row, others)) = left.split_first_mut() {
        if let Some(lead) = row.least() {
            clear(others, *row, lead);
            rank += 1;
        }
        left = others;
    }
    rank
}
