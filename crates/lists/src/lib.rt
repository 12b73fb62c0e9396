// Lists of a few items, kept in place: no more than their type says, and no memory but their own.
#![tactic(auto)]

ghost use Rattle.std.specs.Prelude.{◌≡◌, ◌≤◌, ⊤, length};

use std::alloc::AllocError;

// A list of at most N items.
#[derive(Copy)]
pub struct ShortList<T: Copy, const N: usize> {
    slots: [T; N],
    used: usize,
    ghost few: { used ≤ N },
    ghost wide: { length slots ≡ N },
}

// There is no room for one item more.
#[derive(Clone, Copy, PartialEq, Eq, Debug)]
pub struct Full;

impl<T: Copy, const N: usize> Clone for ShortList<T, N> {
    ghost is_clone = { λ l m. m ≡ l };

    ghost is_infallible = { λ _. ⊤ };

    fn clone(&self) -> Result<Self, AllocError> {
        Ok(*self)
    }
}

mod methods;
