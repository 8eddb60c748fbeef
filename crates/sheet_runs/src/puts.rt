ghost use Rattle.std.specs.Prelude.{[], ◌∷◌, OnOk};
ghost use Rattle.stores.specs.Layers.{enciphering, stacked, store};
ghost use Rattle.sheet_runs.specs.Puts.{AnsweredBy, PutBy, Sane};

use ciphers::function::BlockFunction;
use hashing::BlockHash;
use layers::cipher::CipherLayer;
use media::flat::FlatMedium;
use sheet_turns::turns::Run;
use stacks::call::Entry;
use stacks::run::run;
use stacks::stack::{Next, Zero};
use std::alloc::{AllocError, Global};
use stores::store::SectorStore;

// Puts the calls to an enciphering layer over a store.
fn put_through<S: SectorStore + Drop, F: BlockFunction + Drop, H: BlockHash + Drop>(
    below: S,
    function: F,
    hash: H,
    calls: &mut [Entry],
)
    ensures { AnsweredBy (stacked (enciphering (F.BlockFunction.function function) (H.BlockHash.hash hash) ∷ []) (store (S.SectorStore.view below))) calls.old calls.new }
{
    let mut layer = CipherLayer::new(below, function, hash);
    run::<S, Next<Zero>, CipherLayer<S, F, H>>(&mut layer, calls);
}

// Puts the calls of a run to the store of its setting: an enciphering layer over a zeroed flat medium.
pub(crate) fn put_calls(heap: Global, run: Run, calls: &mut [Entry]) -> Result<(), AllocError>
    requires { Sane run }
    ensures { OnOk result (PutBy run calls.old calls.new) }
{
    let Run::Running(setting) = run else {
        return Ok(());
    };
    let length = usize::from(setting.length);
    let mut bytes = vec![in heap; 0u8; usize::from(setting.count) * length]?;
    let medium = FlatMedium::new(bytes.as_mut_slice(), u64::from(setting.count), length);
    let function = setting.cipher.keyed(setting.key);
    put_through(medium, function, setting.hash, calls);
    Ok(())
}
