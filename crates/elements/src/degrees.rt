ghost use Rattle.std.specs.Prelude.{◌≡◌, Some};
ghost use Rattle.elements.specs.Values.{degree, degree_operations, degree_text};
ghost use Rattle.elements.specs.Instances.{degree_laws};

use crate::element::{Arithmetic, Element};
use crate::values::Degree;
use std::fmt;

impl Degree {
    pub fn new(value: Option<u32>) -> Degree
        ensures { result ≡ degree value }
    {
        Degree { value }
    }
}

impl Arithmetic for Degree {
    ghost operations = { degree_operations };

    fn zero() -> Degree {
        Degree::new(None)
    }

    fn one() -> Degree {
        Degree::new(Some(0))
    }

    fn add(self, other: Degree) -> Degree {
        // None is below every number
        Degree::new(self.value.max(other.value))
    }

    fn mul(self, other: Degree) -> Degree {
        let both = self.value.zip(other.value);
        Degree::new(both.map(|(a, b)| a.saturating_add(b)))
    }
}

impl Element for Degree {
    ghost laws = { degree_laws };
}

// A degree as it is printed: its decimal digits, or a dash where it is absent.
impl fmt::Display for Degree {
    ghost output = { λ x. Some (degree_text x) };

    fn fmt<W: fmt::Write>(&self, f: &mut fmt::Formatter<W>) -> fmt::Result {
        match self.value {
            Some(n) => write!(f, "{n}"),
            None => write!(f, "-"),
        }
    }
}
