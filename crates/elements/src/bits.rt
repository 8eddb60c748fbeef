ghost use Rattle.std.specs.Prelude.{◌≡◌, ℕ, ◌/◌, ◌%◌, bit_xor};
ghost use Rattle.elements.specs.Field.{pick, double as doubled, times as product};
ghost use Rattle.elements.specs.Operations.{Laws};
ghost use Rattle.elements.specs.Values.{field_operations};

use crate::element::{Arithmetic, Element};

// A binary field: the polynomials over bits, reduced by z^width + feedback. These are what its sum and its product
// are worked out with. No operation branches on the bits of an element.
pub trait BinaryField: Copy {
    ghost width: { ℕ };

    ghost feedback: { ℕ };

    ghost bits: { Self → ℕ };

    // The element with these bits, of which the low ones count.
    ghost of: { ℕ → Self };

    // The number of bits.
    fn width() -> u32
        ensures { result ≡ width };

    // No bit.
    fn none() -> Self
        ensures { bits result ≡ 0 };

    // The last bit alone.
    fn last() -> Self
        ensures { bits result ≡ 1 };

    fn xor(self, other: Self) -> Self
        ensures { bits result ≡ bit_xor (bits self) (bits other) };

    // The other element where the last bit is 1, and no bit where it is 0.
    fn last_picks(self, other: Self) -> Self
        ensures { bits result ≡ pick (bits self % 2) (bits other) };

    // Without its last bit.
    fn half(self) -> Self
        ensures { bits result ≡ bits self / 2 };

    // Times z, reduced.
    fn double(self) -> Self
        ensures { bits result ≡ doubled width feedback (bits self) };

    // An element is the one with its bits.
    ghost whole: { (x : Self) → of (bits x) ≡ x };

    ghost laws: { Laws (field_operations width feedback bits of) };
}

// The product of two elements, by doubling and adding alone.
fn times<F: BinaryField>(x: F, y: F) -> F
    ensures { F.bits result ≡ product F.width F.feedback F.width (F.bits x) (F.bits y) }
{
    let mut sum = F::none();
    let mut rest = x;
    let mut power = y;
    for _ in 0..F::width() {
        sum = sum.xor(rest.last_picks(power));
        rest = rest.half();
        power = power.double();
    }
    sum
}

impl<F: BinaryField> Arithmetic for F {
    ghost operations = { field_operations F.width F.feedback F.bits F.of };

    fn zero() -> F {
        F::none()
    }

    fn one() -> F {
        F::last()
    }

    fn add(self, other: F) -> F {
        self.xor(other)
    }

    fn mul(self, other: F) -> F {
        times(self, other)
    }
}

impl<F: BinaryField> Element for F {
    ghost laws = { F.laws };
}
