//! What happened so far, one thing after another.
ghost use Rattle.std.specs.Prelude.{◌≡◌, List, [], ◌++◌};
ghost use Rattle.std.specs.Borrow.{ftrue};

use std::marker::{Model, PhantomData};

/// A list that contracts alone see, as `items`. It has no bytes and stands in contracts alone, so it may be of any
/// length.
#[derive(Drop)]
pub struct Trace<T> {
    marker: PhantomData<T>,
    pub ghost items: { List T },
}

impl<T> Model for Trace<T> {
    ghost also_owns = { λ _. ftrue };
}

impl<T> Trace<T> {
    /// Nothing yet.
    pub fn new() -> Trace<T>
        ensures { result.items ≡ [] }
    {
        Trace {
            marker: PhantomData,
        }
    }

    /// These too, in order.
    pub fn add(&mut self, _more: &[T])
        ensures { self.new.items ≡ self.old.items ++ _more.now }
    {}
}
