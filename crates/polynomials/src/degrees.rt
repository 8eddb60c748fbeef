ghost use Rattle.std.specs.Prelude.{◌≡◌};
ghost use Rattle.polynomials.specs.Degrees.{horner_degree, brw_degree};

use crate::sums::{brw, horner};
use crate::views::Repeated;
use elements::values::Degree;

// The degrees of Horner and BRW of so many blocks.
#[derive(Clone, Copy, Debug, PartialEq, Eq)]
pub struct Degrees {
    pub horner: Degree,
    pub brw: Degree,
}

// The degrees of Horner and BRW of as many blocks as named, each of degree 0, at a key of degree 1.
pub fn degrees_of(blocks: usize) -> Degrees
    ensures horner { result.horner ≡ horner_degree blocks }
    ensures brw { result.brw ≡ brw_degree blocks }
{
    let key = Degree::new(Some(1));
    let list = Repeated {
        element: Degree::new(Some(0)),
        count: blocks,
    };
    let mut powers = [key; 64];
    let brw = brw(key, &mut powers, &list).unwrap();
    Degrees {
        horner: horner(key, &list),
        brw,
    }
}
