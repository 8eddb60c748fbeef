ghost use Rattle.std.specs.Prelude.{◌≡◌, List, [], ◌∷◌, length};
ghost use Rattle.stores.specs.Layers.{Layer, enciphering, over, window};
ghost use Rattle.stacks.specs.Laid.{laid};
ghost use Rattle.std.proofs.Common.{refl, ap, suc};

use ciphers::function::BlockFunction;
use hashing::BlockHash;
use layers::cipher::CipherLayer;
use layers::window::Window;
use stores::store::SectorStore;

// How many layers: none, or one more than N. The number tells a store from a stack on it, as every store is both.
pub struct Zero {}

pub struct Next<N>(N);

// N layers on a lowest store of the type B.
pub trait StackOn<B: SectorStore, N>: SectorStore {
    // The layers, the topmost first.
    ghost above: { Self → List Layer };

    // The store on which the lowest of them stands.
    ghost lowest: { Self → B };

    // What the stack shows are these layers on what the lowest store shows.
    ghost stands: { (s : Self) → Self.SectorStore.view s ≡ laid (above s) (B.SectorStore.view (lowest s)) };

    ghost deep: { (s t : Self) → length (above s) ≡ length (above t) };
}

impl<S: SectorStore> StackOn<S, Zero> for S {
    ghost above = { λ s. [] };

    ghost lowest = { λ s. s };

    ghost stands = { λ s. refl };

    ghost deep = { λ s t. refl };
}

impl<B: SectorStore, N, P: StackOn<B, N>, F: BlockFunction, H: BlockHash> StackOn<B, Next<N>>
    for CipherLayer<P, F, H> {
    ghost above = { λ s. enciphering (F.BlockFunction.function s.cipher.function) (H.BlockHash.hash s.cipher.hash) ∷ P.StackOn.above s.below };

    ghost lowest = { λ s. P.StackOn.lowest s.below };

    ghost stands = { λ s. ap (over (enciphering (F.BlockFunction.function s.cipher.function) (H.BlockHash.hash s.cipher.hash))) (P.StackOn.stands s.below) };

    ghost deep = { λ s t. ap suc (P.StackOn.deep s.below t.below) };
}

impl<B: SectorStore, N, P: StackOn<B, N>> StackOn<B, Next<N>> for Window<P> {
    ghost above = { λ s. window s.run.base s.run.count ∷ P.StackOn.above s.below };

    ghost lowest = { λ s. P.StackOn.lowest s.below };

    ghost stands = { λ s. ap (over (window s.run.base s.run.count)) (P.StackOn.stands s.below) };

    ghost deep = { λ s t. ap suc (P.StackOn.deep s.below t.below) };
}
