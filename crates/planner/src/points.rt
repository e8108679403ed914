use sets::SmallSet;
use std::fmt;

/// The points of a set, as they are printed: `0, 1, 4`.
#[derive(Clone, Copy)]
pub struct Points(pub SmallSet);

impl fmt::Display for Points {
    fn fmt<W: fmt::Write>(&self, f: &mut fmt::Formatter<W>) -> fmt::Result {
        let mut points = self.0.iter();
        if let Some(first) = points.next() {
            write!(f, "{first}")?;
        }
        for point in points {
            write!(f, ", {point}")?;
        }
        Ok(())
    }
}
