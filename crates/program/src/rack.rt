// A list of at most N items in fixed memory. It is Copy, as a program is, which the library's lists are not.
ghost use Rattle.std.specs.Prelude.{◌≡◌, ◌≤◌, length, ⊤};

use std::alloc::AllocError;

mod items;

// The first `count` of the places are held.
pub(crate) struct Rack<T, const N: usize> {
    places: [T; N],
    count: usize,
    ghost within: { count ≤ N },
    ghost whole: { length places ≡ N },
}

// By hand: no derive goes over the ghost field of a generic struct.
impl<T: Copy, const N: usize> Clone for Rack<T, N> {
    ghost is_clone = { λ x y. y ≡ x };

    ghost is_infallible = { λ _. ⊤ };

    fn clone(&self) -> Result<Rack<T, N>, AllocError> {
        Ok(*self)
    }
}

impl<T: Copy, const N: usize> Copy for Rack<T, N> {}
