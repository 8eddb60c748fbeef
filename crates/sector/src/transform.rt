ghost use Rattle.std.specs.Prelude.{◌≡◌, ◌-◌, ◌%◌, ◌≤◌, true, length, replicate, is_ok, if◌then◌else◌};
ghost use Rattle.sector.specs.Refusals.{admitted as admitted_length, answer as answer_of};
ghost use Rattle.sector.specs.Texts.{reversed, transformed_bytes};
ghost use Rattle.sector.specs.Transform.{tweak as tweak_of};

use crate::cipher::SectorCipher;
use crate::counter::count;
use crate::cover::cover_stack;
use crate::pieces::{get_front, put_front};
use crate::refusal::Refusal;
use crate::steps::{from_middle, hash_key, to_middle};
use crate::tails::tail_hash;
use crate::text::Direction;
use ciphers::function::BlockFunction;
use elements::element::Arithmetic;
use elements::values::Block;
use hashing::BlockHash;

// Holds the working bytes of a call. They are zero once it ends, whichever way the call goes out.
struct Guard<'a> {
    bytes: &'a mut [u8],
}

impl Drop for Guard<'_> {
    fn drop(self)
        ensures { self.exit.0.now ≡ replicate (length self.entry.bytes.now) 0 }
    {
        self.bytes.fill(0);
        let Guard { bytes: _ } = self;
    }
}

fn admitted(n: usize) -> bool
    ensures { result ≡ admitted_length n }
{
    n % 16 == 0 && (64..=4096).contains(&n)
}

// The number of a sector as a block.
fn tweak_block(sector: u64) -> Block
    ensures { result ≡ tweak_of sector }
{
    Block::new(u128::from(sector))
}

impl<F: BlockFunction, H: BlockHash> SectorCipher<F, H> {
    // A call whose lengths are right.
    fn accepted(
        &self,
        direction: Direction,
        tweak: Block,
        text: &[u8],
        output: &mut [u8],
        working: &mut [u8],
    )
        requires { (64 ≤ length text.now) × ((length text.now % 16 ≡ 0) × ((length output.old ≡ length text.now) × (length text.now - 16 ≤ length working.old))) }
        ensures { output.new ≡ transformed_bytes direction (F.function self.now.function) (H.hash self.now.hash) tweak text.now }
    {
        let key = hash_key(&self.function);
        let (front, tail) = text.split_at(32);
        let (new_front, new_tail) = output.split_at_mut(32);
        let list = &mut working[..tail.len() + 16];
        let h = tail_hash(&self.hash, key, tweak, tail, list);
        let middle = to_middle(direction, &self.function, key, h, get_front(front));
        count(
            &self.function,
            middle.first.add(middle.second),
            tail,
            new_tail,
        );
        let h = tail_hash(&self.hash, key, tweak, new_tail, list);
        put_front(
            new_front,
            from_middle(direction, &self.function, key, h, middle),
        );
    }

    // A call, which leaves the stack uncovered.
    #[inline(never)]
    fn uncovered(
        &self,
        direction: Direction,
        tweak: Block,
        text: &[u8],
        output: &mut [u8],
        working: &mut [u8],
    ) -> Result<(), Refusal>
        ensures answer { result ≡ answer_of (length text.now) (length output.old) (length working.old) }
        ensures output { output.new ≡ (if is_ok result then transformed_bytes direction (F.function self.now.function) (H.hash self.now.hash) tweak text.now else output.old) }
        ensures working { working.new ≡ replicate (length working.old) 0 }
    {
        let guard = Guard { bytes: working };
        if !admitted(text.len()) {
            return Err(Refusal::TextLength);
        }
        if output.len() != text.len() {
            return Err(Refusal::BufferLength);
        }
        if guard.bytes.len() < text.len() - 16 {
            return Err(Refusal::WorkingLength);
        }
        self.accepted(direction, tweak, text, output, guard.bytes);
        Ok(())
    }

    // Enciphers or deciphers the text of a sector into the output. Refused: a text that is not a multiple of 16 bytes
    // from 64 to 4,096; an output that is not as long as the text; fewer working bytes than the text's less 16. The output
    // is then as it was. The working bytes are zero afterwards, refused or not. The three buffers come one by one, as callers
    // lend them.
    pub fn transform(
        &self,
        direction: Direction,
        sector: u64,
        text: &[u8],
        output: &mut [u8],
        working: &mut [u8],
    ) -> Result<(), Refusal>
        ensures answer { result ≡ answer_of (length text.now) (length output.old) (length working.old) }
        ensures output { output.new ≡ (if is_ok result then transformed_bytes direction (F.function self.now.function) (H.hash self.now.hash) (tweak_of sector) text.now else output.old) }
        ensures inverse { is_ok result ≡ true → transformed_bytes (reversed direction) (F.function self.now.function) (H.hash self.now.hash) (tweak_of sector) output.new ≡ text.now }
        ensures working { working.new ≡ replicate (length working.old) 0 }
    {
        let answer = self.uncovered(direction, tweak_block(sector), text, output, working);
        // The compiler does not find out that the test always holds, and so keeps the cover.
        if cover_stack((sector % 256) as u8) == 0 {
            answer
        } else {
            Err(Refusal::WorkingLength)
        }
    }
}
