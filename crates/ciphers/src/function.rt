ghost use Rattle.std.specs.Prelude.{◌≡◌, ℕ};
ghost use Rattle.elements.specs.declared.values.Block.{Block};

use elements::values::Block;

// A function from blocks to blocks, invertible or not. Its call answers the function's value every time, whatever
// came before; code that is generic over block functions knows this and the key's length alone.
pub trait BlockFunction {
    // How many bytes the key has.
    const KEY_LENGTH: usize;

    // The constant as clauses name it. By the constant's own name the checker states no implementation for a type with a
    // lifetime, such as a reference: it "cannot give this method the clauses of its trait yet".
    ghost key_length: { ℕ };

    // The function itself.
    ghost function: { Self → Block → Block };

    // The constant, for generic code: its clause ties the two.
    fn key_bytes() -> usize
        ensures { result ≡ key_length };

    fn call(&self, x: Block) -> Block
        ensures { result ≡ function self.now x };
}

// A reference calls what it points to. That its constant is the one below cannot be said: under a bound, no two reads of a
// constant are known to be equal.
impl<F: BlockFunction> BlockFunction for &F {
    const KEY_LENGTH: usize = F::KEY_LENGTH;

    ghost key_length = { F.key_length };

    ghost function = { λ f. F.function f.now };

    fn key_bytes() -> usize {
        F::key_bytes()
    }

    fn call(&self, x: Block) -> Block {
        (**self).call(x)
    }
}
