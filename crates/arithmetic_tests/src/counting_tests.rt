// What BRW costs, counted by a type that notes each product it makes.
ghost use Rattle.std.specs.Option.{option_or};
ghost use Rattle.std.specs.Prelude.{Some, None};
ghost use Rattle.elements.specs.Values.{degree, degree_operations};

use elements::element::Arithmetic;
use elements::values::Degree;
use polynomials::lists::Elements;
use polynomials::sums::brw_by_squares;
use polynomials::views::Repeated;
use std::cell::Cell;
use std::process::Abort;

#[derive(Drop)]
struct Tally {
    products: Cell<u32>,
    squarings: Cell<u32>,
}

// A degree that notes its products in a tally. At key degree 1 and block degree 0 no product of BRW has two factors
// of one degree but the squarings of the key's powers, so a product of equal degrees is a squaring.
#[derive(Clone, Copy)]
struct Counted<'a> {
    degree: Degree,
    tally: Option<&'a Tally>,
}

impl<'a> Arithmetic for Counted<'a> {
    ghost operations = { record { zero = record { degree = degree None; tally = None }; one = record { degree = degree (Some 0); tally = None }; sum = λ x y. record { degree = degree_operations.sum x.degree y.degree; tally = option_or x.tally y.tally }; product = λ x y. record { degree = degree_operations.product x.degree y.degree; tally = option_or x.tally y.tally } } };

    fn zero() -> Counted<'a> {
        Counted {
            degree: Degree::zero(),
            tally: None,
        }
    }

    fn one() -> Counted<'a> {
        Counted {
            degree: Degree::one(),
            tally: None,
        }
    }

    fn add(self, other: Counted<'a>) -> Counted<'a> {
        Counted {
            degree: self.degree.add(other.degree),
            tally: self.tally.or(other.tally),
        }
    }

    fn mul(self, other: Counted<'a>) -> Counted<'a> {
        let tally = self.tally.or(other.tally);
        if let Some(t) = tally {
            let kind = if self.degree == other.degree {
                &t.squarings
            } else {
                &t.products
            };
            kind.set(kind.get().wrapping_add(1));
        }
        Counted {
            degree: self.degree.mul(other.degree),
            tally,
        }
    }
}

fn costs(rt: &impl Abort, blocks: usize, products: u32, squarings: u32) {
    let tally = Tally {
        products: Cell::new(0),
        squarings: Cell::new(0),
    };
    let key = Counted {
        degree: Degree::new(Some(1)),
        tally: Some(&tally),
    };
    let list = Repeated {
        element: Counted {
            degree: Degree::new(Some(0)),
            tally: None,
        },
        count: blocks,
    };
    let mut powers = [key; 64];
    let value = brw_by_squares(key, &mut powers, &list);
    assert!(rt; value.is_some());
    assert_eq!(rt; tally.products.get(), products);
    assert_eq!(rt; tally.squarings.get(), squarings);
}

#[test]
fn brw_makes_half_as_many_products_as_blocks(rt: HostRuntime) {
    costs(&rt, 2, 1, 0);
    costs(&rt, 3, 1, 1);
    costs(&rt, 4, 2, 2);
    costs(&rt, 7, 3, 2);
    costs(&rt, 31, 15, 4);
    costs(&rt, 255, 127, 7);
}
