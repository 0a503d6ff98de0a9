//! A list that only the contracts see: it takes no memory, and its calls do nothing when the program runs.
ghost use Rattle.std.specs.{Prelude.{◌≡◌, List, [], ◌∷◌, ◌++◌}, Borrow.{ftrue}};

use std::marker::{Model, PhantomData};

/// The items so far, the newest last.
#[derive(Drop)]
pub struct History<T> {
    of: PhantomData<T>,
    pub ghost items: { List T },
}

// It owns none of them.
impl<T> Model for History<T> {
    ghost also_owns = { λ _. ftrue };
}

impl<T> History<T> {
    /// No items.
    pub fn new() -> History<T>
        ensures { result.items ≡ [] }
    {
        History { of: PhantomData }
    }

    /// The items so far, and then this one.
    pub fn and(&self, item: &T) -> History<T>
        ensures { result.items ≡ self.now.items ++ item.now ∷ [] }
    {
        History { of: PhantomData }
    }
}
