ghost use Rattle.std.specs.Prelude.{◌≡◌, ◌+◌, ◌%◌, ◌++◌, length};
ghost use Rattle.polynomials.specs.Blocks.{blocks_of};
ghost use Rattle.sector.specs.Transform.{tail_hash as tail_hash_of};

use elements::element::Arithmetic;
use elements::values::Block;
use hashing::BlockHash;
use polynomials::views::Blocks;

// Fills the list with two texts, one after the other.
fn put_list(list: &mut [u8], first: &[u8], second: &[u8])
    requires { length list.old ≡ length first.now + length second.now }
    ensures { list.new ≡ first.now ++ second.now }
{
    let (front, back) = list.split_at_mut(first.len());
    front.copy_from_slice(first);
    back.copy_from_slice(second);
}

// The key times the hash of a tail followed by the tweak. `list` is room for the two.
pub(crate) fn tail_hash<H: BlockHash>(
    g: &H,
    key: Block,
    tweak: Block,
    tail: &[u8],
    list: &mut [u8],
) -> Block
    requires { (length list.old ≡ length tail.now + 16) × (length tail.now % 16 ≡ 0) }
    ensures { result ≡ tail_hash_of (H.hash g.now) key tweak (blocks_of tail.now) }
{
    put_list(list, tail, &tweak.to_bytes());
    key.mul(g.call(key, Blocks { bytes: list }))
}
