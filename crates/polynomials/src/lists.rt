ghost use Rattle.std.specs.Prelude.{◌≡◌, ◌<◌, List, length, slice_index_or};
ghost use Rattle.std.specs.List.{slice_get};

// A list of elements, however it is stored.
pub trait Elements<E> {
    ghost items: { Self → List E };

    fn len(&self) -> usize
        ensures { result ≡ length (items self.now) };

    // The element at index i, from 0, if the list goes so far.
    fn get(&self, i: usize) -> Option<E>
        ensures { result ≡ slice_get (items self.now) i };
}

// A list that lies as elements.
impl<'a, E: Copy> Elements<E> for &'a [E] {
    ghost items = { λ s. s.now };

    fn len(&self) -> usize {
        let s = *self;
        s.len()
    }

    fn get(&self, i: usize) -> Option<E> {
        let s = *self;
        s.get(i).copied()
    }
}

// The element at an index that the list reaches.
pub(crate) fn element<E: Copy, L: Elements<E>>(xs: &L, i: usize) -> E
    requires { i < length (L.items xs.now) }
    ensures { result ≡ slice_index_or (L.items xs.now) i result }
{
    xs.get(i).unwrap()
}
