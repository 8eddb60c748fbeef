#![tactic(auto)]

// layer_costs CIPHER HASH LAYERS LENGTH WRITES READS: puts so many writes and then so many reads of one sector to a stack of
// enciphering layers (0, 1, 2 or 4) over a flat medium, and prints how the sector lies in the medium and what was read, the
// first eight bytes of each. Nothing allocates but the start.
use anyhow::anyhow;
use ciphers::aes::Aes128;
use ciphers::choice::Cipher;
use ciphers::function::BlockFunction;
use ciphers::speck::Speck128;
use hashing::choice::AnyHash;
use hashing::{BlockHash, BrwHash, HornerHash};
use layers::cipher::CipherLayer;
use media::flat::FlatMedium;
use sector::cipher::SectorCipher;
use stacks::stack::{Next, Zero};
use std::env;
use stores::store::SectorStore;

const KEY: [u8; 16] = *b"key of a device!";

const SECTOR: u64 = 3;

const COUNT: u64 = 4;

#[derive(Clone, Copy)]
struct Work {
    writes: u64,
    reads: u64,
}

impl Work {
    // Puts the calls to a store.
    fn put<S: SectorStore>(self, store: &mut S, buffer: &mut [u8]) {
        for _ in 0..self.writes {
            let _ = store.write(SECTOR, buffer);
        }
        for _ in 0..self.reads {
            let _ = store.read(SECTOR, buffer);
        }
    }
}

// A number of layers.
trait Depth {
    // Puts the calls to so many layers on a store, and gives the store back.
    fn over<S: SectorStore, F: BlockFunction + Copy, H: BlockHash + Copy>(
        work: Work,
        store: S,
        cipher: SectorCipher<F, H>,
        buffer: &mut [u8],
    ) -> S;
}

impl Depth for Zero {
    fn over<S: SectorStore, F: BlockFunction + Copy, H: BlockHash + Copy>(
        work: Work,
        mut store: S,
        _cipher: SectorCipher<F, H>,
        buffer: &mut [u8],
    ) -> S {
        work.put(&mut store, buffer);
        store
    }
}

impl<D: Depth> Depth for Next<D> {
    fn over<S: SectorStore, F: BlockFunction + Copy, H: BlockHash + Copy>(
        work: Work,
        store: S,
        cipher: SectorCipher<F, H>,
        buffer: &mut [u8],
    ) -> S {
        let layer = CipherLayer::new(store, cipher.function, cipher.hash);
        D::over(work, layer, cipher, buffer).into_below()
    }
}

// The layers of a stack.
#[derive(Clone, Copy)]
struct Stack {
    cipher: Cipher,
    hash: AnyHash,
    layers: u64,
}

impl Stack {
    // Does the work on so many layers on a store.
    fn over<S: SectorStore, F: BlockFunction + Copy, H: BlockHash + Copy>(
        self,
        work: Work,
        store: S,
        cipher: SectorCipher<F, H>,
        buffer: &mut [u8],
    ) -> S {
        match self.layers {
            1 => <Next<Zero> as Depth>::over(work, store, cipher, buffer),
            2 => <Next<Next<Zero>> as Depth>::over(work, store, cipher, buffer),
            4 => <Next<Next<Next<Next<Zero>>>> as Depth>::over(work, store, cipher, buffer),
            _ => <Zero as Depth>::over(work, store, cipher, buffer),
        }
    }

    // The same with the block function chosen.
    fn over_function<S: SectorStore, F: BlockFunction + Copy>(
        self,
        work: Work,
        store: S,
        function: F,
        buffer: &mut [u8],
    ) -> S {
        match self.hash {
            AnyHash::Horner => {
                let hash = HornerHash;
                self.over(work, store, SectorCipher { function, hash }, buffer)
            }
            AnyHash::Brw => {
                let hash = BrwHash;
                self.over(work, store, SectorCipher { function, hash }, buffer)
            }
        }
    }

    // The same with the block function and the hash still to be chosen. Each choice is code of its own, as in a device.
    fn over_store<S: SectorStore>(self, work: Work, store: S, buffer: &mut [u8]) -> S {
        match self.cipher {
            Cipher::Aes => self.over_function(work, store, Aes128::new(KEY), buffer),
            Cipher::Speck => self.over_function(work, store, Speck128::new(KEY), buffer),
        }
    }
}

// The first eight bytes as a number. By a fold, as fewer bytes are a number too.
fn first(bytes: &[u8]) -> u64 {
    bytes
        .iter()
        .take(8)
        .fold(0, |value, byte| value << 8 | u64::from(*byte))
}

// The text of the sector: 0, 1, 2, ...
fn fill_text(bytes: &mut [u8]) {
    for (i, byte) in bytes.iter_mut().enumerate() {
        *byte = (i % 251) as u8;
    }
}

fn main(rt: HostRuntime) -> anyhow::Result<()> {
    let mut words = [0u64; 6];
    for (number, word) in words.iter_mut().zip(env::args(&rt)?.skip(1)) {
        *number = word.parse::<u64>()?;
    }
    let [cipher, hash, layers, length, writes, reads] = words;
    if length > 4096 {
        return Err(anyhow!("a sector has up to 4,096 bytes"));
    }
    let length = length as usize;
    // Not by `try_from`: every other number is the second cipher, or the second hash.
    let stack = Stack {
        cipher: if cipher == 1 {
            Cipher::Aes
        } else {
            Cipher::Speck
        },
        hash: if hash == 1 {
            AnyHash::Horner
        } else {
            AnyHash::Brw
        },
        layers,
    };
    let mut memory = vec![in rt.alloc(); 0u8; 4 * length]?;
    let mut buffer = vec![in rt.alloc(); 0u8; length]?;
    fill_text(&mut buffer);
    let medium = FlatMedium::new(&mut memory, COUNT, length);
    let medium = stack.over_store(Work { writes, reads }, medium, &mut buffer);
    let lying = medium.into_bytes();
    let at = lying.len() / 4 * 3;
    println!(rt; "{:016X} {:016X}", first(&lying[at..]), first(&buffer))?;
    Ok(())
}
