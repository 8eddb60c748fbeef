// Builds a stack of up to five layers and puts a list of calls to it. The type of a stack tells its layers, so each level is
// code of its own, and the room that is left above it is a type too.
use crate::plan::{Layer, Medium};
use ciphers::choice::AnyCipher;
use hashing::choice::AnyHash;
use layers::cipher::CipherLayer;
use layers::window::Window;
use media::spared::SparedMedium;
use stacks::call::Entry;
use stacks::run::run;
use stacks::stack::{Next, StackOn, Zero};
use stores::store::SectorStore;

// More layers are wanted than there is room for.
#[derive(Clone, Copy, Debug, PartialEq, Eq)]
pub(crate) struct TooDeep;

// How many layers more may come.
trait Room {
    // Puts the calls to these layers on the stack.
    fn put<B: SectorStore, N, P: StackOn<B, N> + Drop>(
        stack: P,
        layers: &[Layer],
        list: &mut [Entry],
    ) -> Result<(), TooDeep>;
}

impl Room for Zero {
    fn put<B: SectorStore, N, P: StackOn<B, N> + Drop>(
        mut stack: P,
        layers: &[Layer],
        list: &mut [Entry],
    ) -> Result<(), TooDeep> {
        if !layers.is_empty() {
            return Err(TooDeep);
        }
        run::<B, N, P>(&mut stack, list);
        Ok(())
    }
}

impl<R: Room> Room for Next<R> {
    fn put<B: SectorStore, N, P: StackOn<B, N> + Drop>(
        mut stack: P,
        layers: &[Layer],
        list: &mut [Entry],
    ) -> Result<(), TooDeep> {
        match layers {
            [] => {
                run::<B, N, P>(&mut stack, list);
                Ok(())
            }
            [Layer::Encipher { cipher, hash, key }, above @ ..] => {
                let layer = CipherLayer::new(stack, cipher.keyed(*key), *hash);
                <R as Room>::put::<B, Next<N>, CipherLayer<P, AnyCipher, AnyHash>>(
                    layer, above, list,
                )
            }
            [Layer::Window { base, count }, above @ ..] => {
                let window = Window::new(stack, *base, *count);
                <R as Room>::put::<B, Next<N>, Window<P>>(window, above, list)
            }
        }
    }
}

type Five = Next<Next<Next<Next<Next<Zero>>>>>;

// Puts the calls to a stack of these layers on a spared medium, or none of them, if the layers are more than five.
pub(crate) fn put<'a>(
    medium: &'a mut Medium,
    layers: &[Layer],
    list: &mut [Entry],
) -> Result<(), TooDeep> {
    let lowest = SparedMedium::new(
        &mut medium.bytes,
        medium.count,
        medium.length,
        medium.spares,
        &medium.bad,
    );
    <Five as Room>::put::<SparedMedium<'_>, Zero, SparedMedium<'_>>(lowest, layers, list)
}
