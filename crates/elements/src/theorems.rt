ghost use Rattle.std.specs.Prelude.{[], ◌∷◌};
ghost use Rattle.elements.specs.Field.{Reduced, terms};
ghost use Rattle.elements.specs.Values.{byte_operations, block_operations};

use crate::values::{Block, Byte};

// The product of two bytes is that of polynomials over bits, reduced by z^8 + z^4 + z^3 + z + 1, and that of two
// blocks the same, reduced by z^128 + z^7 + z^2 + z + 1.
pub fn products_are_reduced()
    ensures bytes { Reduced (λ (x : Byte). x.value) byte_operations.product 8 (terms (8 ∷ (4 ∷ (3 ∷ (1 ∷ (0 ∷ [])))))) }
    ensures blocks { Reduced (λ (x : Block). x.value) block_operations.product 128 (terms (128 ∷ (7 ∷ (2 ∷ (1 ∷ (0 ∷ [])))))) }
{}
