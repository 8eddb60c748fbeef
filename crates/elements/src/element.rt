ghost use Rattle.std.specs.Prelude.{◌≡◌};
ghost use Rattle.elements.specs.Operations.{Operations, Laws};

// A type with a zero, a one, a sum and a product. Nothing is asked of them here: a type that counts its products
// has them, and keeps no law.
pub trait Arithmetic: Copy {
    ghost operations: { Operations Self };

    fn zero() -> Self
        ensures { result ≡ operations.zero };

    fn one() -> Self
        ensures { result ≡ operations.one };

    fn add(self, other: Self) -> Self
        ensures { result ≡ operations.sum self other };

    fn mul(self, other: Self) -> Self
        ensures { result ≡ operations.product self other };
}

// An element type: arithmetic that keeps every law of a commutative semiring.
pub trait Element: Arithmetic {
    ghost laws: { Laws Self.Arithmetic.operations };
}
