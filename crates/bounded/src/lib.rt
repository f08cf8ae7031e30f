// A list in fixed memory: at most so many items, and nothing is allocated.
// push and extend keep the items that there is room for, and silently drop the rest.
#![tactic(auto)]

ghost use Rattle.std.specs.Prelude.{◌≡◌, ◌+◌, ◌≤◌, [], ◌∷◌, ◌++◌, length, take, drop};

use std::alloc::AllocError;

/// At most N items, in their order.
pub struct Bounded<T, const N: usize> {
    places: [T; N],
    len: usize,
    ghost few: { len ≤ N },
}

impl<T: Copy, const N: usize> Copy for Bounded<T, N> {}

impl<T: Copy, const N: usize> Clone for Bounded<T, N> {
    ghost is_clone = { λ x y. y ≡ x };

    ghost is_infallible = { λ _. Unit };

    fn clone(&self) -> Result<Self, AllocError> {
        Ok(*self)
    }
}

impl<T: Copy, const N: usize> Bounded<T, N> {
    ghost use Rattle.bounded.specs.Items.{items_of};

    /// No items. A blank stands in each free place.
    pub fn new(blank: T) -> Bounded<T, N>
        ensures { items_of result ≡ [] }
    {
        Bounded {
            places: [blank; N],
            len: 0,
        }
    }

    /// The items.
    pub fn as_slice(&self) -> &[T]
        ensures { result.now ≡ items_of self.now }
    {
        &self.places[..self.len]
    }

    /// How many items there are.
    pub fn len(&self) -> usize
        ensures count { result ≡ length (items_of self.now) }
        ensures few { result ≤ N }
    {
        self.len
    }

    /// One item more at the end, where there is room.
    pub fn push(&mut self, item: T)
        ensures { items_of self.new ≡ take N (items_of self.old ++ item ∷ []) }
    {
        if self.len < N {
            self.places[self.len] = item;
            self.len += 1;
        }
    }

    /// More items at the end, as many as there is room for.
    pub fn extend(&mut self, more: &[T])
        ensures { items_of self.new ≡ take N (items_of self.old ++ more.now) }
    {
        let len = self.len;
        let taken = (N - len).min(more.len());
        let places = &mut self.places[..];
        places[len..len + taken].copy_from_slice(&more[..taken]);
        self.len = len + taken;
    }

    /// The list without the item at a place, from 0; later items move up. Nothing where no item is there.
    pub fn remove(&mut self, place: usize)
        ensures { items_of self.new ≡ take place (items_of self.old) ++ drop (place + 1) (items_of self.old) }
    {
        let len = self.len;
        if place < len {
            let places = &mut self.places[..];
            places[place..len].rotate_left(1);
            self.len = len - 1;
        }
    }
}
