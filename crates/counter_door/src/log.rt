//! A list that proofs alone read.

ghost use Rattle.std.specs.Prelude.{◌≡◌, List, [], ◌∷◌, ◌++◌};
ghost use base.Fml.{ftrue};

use std::marker::{Model, PhantomData};

/// A list of values, of which none is kept: it takes no memory, and its functions do nothing.
#[derive(Drop)]
pub(crate) struct Log<A> {
    of: PhantomData<A>,
    ghost items: { List A },
}

impl<A> Model for Log<A> {
    ghost also_owns = { λ _. ftrue };
}

impl<A> Log<A> {
    /// None.
    #[inline(always)]
    pub(crate) fn new() -> Log<A>
        ensures { result.items ≡ [] }
    {
        Log { of: PhantomData }
    }

    /// The same, and one more.
    #[inline(always)]
    pub(crate) fn and(&self, _item: &A) -> Log<A>
        ensures { result.items ≡ self.now.items ++ _item.now ∷ [] }
    {
        Log { of: PhantomData }
    }
}
