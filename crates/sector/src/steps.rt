ghost use Rattle.std.specs.Prelude.{◌≡◌};
ghost use Rattle.sector.specs.Transform.{hash_key as hash_key_of};
ghost use Rattle.sector.specs.Steps.{masked, unmasked, feistel as feistel_of, feistel_back as feistel_back_of, blended, unblended, to_middle as to_middle_of, from_middle as from_middle_of};

use crate::text::{Direction, Front};
use ciphers::function::BlockFunction;
use elements::element::Arithmetic;
use elements::values::Block;

// What the block function is first called with, so that every key has a hash key of its own.
const FIXED_BLOCK: [u8; 16] = *b"LENS HEAD SECTOR";

// The hash key of a block function.
pub(crate) fn hash_key<F: BlockFunction>(f: &F) -> Block
    ensures { result ≡ hash_key_of (F.function f.now) }
{
    f.call(Block::from_bytes(FIXED_BLOCK))
}

fn mask(key: Block, h: Block, p: Front) -> Front
    ensures { result ≡ masked key h p }
{
    let first = p.first.add(h);
    let second = p.second.add(key.mul(first));
    Front { first, second }
}

fn unmask(key: Block, h: Block, a: Front) -> Front
    ensures { result ≡ unmasked key h a }
{
    let second = a.second.add(key.mul(a.first));
    let first = a.first.add(h);
    Front { first, second }
}

fn feistel<F: BlockFunction>(f: &F, a: Front) -> Front
    ensures { result ≡ feistel_of (F.function f.now) a }
{
    let first = a.first.add(f.call(a.second));
    let second = a.second.add(f.call(first));
    Front { first, second }
}

fn feistel_back<F: BlockFunction>(f: &F, b: Front) -> Front
    ensures { result ≡ feistel_back_of (F.function f.now) b }
{
    let second = b.second.add(f.call(b.first));
    let first = b.first.add(f.call(second));
    Front { first, second }
}

fn blend(key: Block, h: Block, b: Front) -> Front
    ensures { result ≡ blended key h b }
{
    let second = b.second.add(key.mul(h));
    let first = b.first.add(key.mul(b.second));
    Front { first, second }
}

fn unblend(key: Block, h: Block, c: Front) -> Front
    ensures { result ≡ unblended key h c }
{
    let second = c.second.add(key.mul(h));
    let first = c.first.add(key.mul(second));
    Front { first, second }
}

// From the front of the text, with the hash of its tail, to the middle. A match here and in `from_middle`: steps handed in as
// closures would be chosen by the same match.
pub(crate) fn to_middle<F: BlockFunction>(
    direction: Direction,
    f: &F,
    key: Block,
    h: Block,
    p: Front,
) -> Front
    ensures { result ≡ to_middle_of direction (F.function f.now) key h p }
{
    match direction {
        Direction::Encipher => feistel(f, mask(key, h, p)),
        Direction::Decipher => unblend(key, h, p),
    }
}

// From the middle, with the hash of the new tail, to the front of the output.
pub(crate) fn from_middle<F: BlockFunction>(
    direction: Direction,
    f: &F,
    key: Block,
    h: Block,
    b: Front,
) -> Front
    ensures { result ≡ from_middle_of direction (F.function f.now) key h b }
{
    match direction {
        Direction::Encipher => blend(key, h, b),
        Direction::Decipher => unmask(key, h, feistel_back(f, b)),
    }
}
