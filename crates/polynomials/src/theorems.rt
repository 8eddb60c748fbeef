ghost use Rattle.polynomials.specs.Degrees.{BrwDegreeBound};
ghost use Rattle.polynomials.specs.Sums.{BrwRules};

use elements::element::{Arithmetic, Element};

// BRW follows its rules, over every element type.
pub fn brw_rules_hold<E: Element>()
    ensures { BrwRules E.Arithmetic.operations }
{}

// At a key of degree 1, BRW of m blocks of degree 0 has a degree of at most 2 m - 1, for m from 3 on.
pub fn brw_degree_is_bounded()
    ensures { BrwDegreeBound }
{}
