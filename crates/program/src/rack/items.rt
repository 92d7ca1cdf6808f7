// The items of a rack: how they are seen, added and replaced.
ghost use Rattle.std.specs.Prelude.{◌≡◌, ◌<◌, ◌≤◌, [], ◌∷◌, ◌++◌, length, nat_le, slice_set};
ghost use Rattle.program.specs.Racks.{listed};

use crate::rack::Rack;

impl<T: Copy, const N: usize> Rack<T, N> {
    // Every place is filled with the blank, and none is held. Inlined, so that the places are filled where the rack will lie.
    #[inline(always)]
    pub(crate) fn new(blank: T) -> Rack<T, N>
        ensures { listed result ≡ [] }
    {
        Rack {
            places: [blank; N],
            count: 0,
        }
    }

    pub(crate) fn as_slice(&self) -> &[T]
        ensures is { result.now ≡ listed self.now }
        ensures within { length result.now ≤ N }
    {
        &self.places[..self.count]
    }

    pub(crate) fn len(&self) -> usize
        ensures { result ≡ length (listed self.now) }
    {
        self.count
    }

    pub(crate) fn is_full(&self) -> bool
        ensures { result ≡ nat_le N (length (listed self.now)) }
    {
        self.count >= N
    }

    pub(crate) fn push(&mut self, item: T)
        requires { length (listed self.old) < N }
        ensures { listed self.new ≡ listed self.old ++ (item ∷ []) }
    {
        self.places[self.count] = item;
        self.count += 1;
    }

    pub(crate) fn set(&mut self, index: usize, item: T)
        requires { index < length (listed self.old) }
        ensures { listed self.new ≡ slice_set (listed self.old) index item }
    {
        self.places[index] = item;
    }
}
