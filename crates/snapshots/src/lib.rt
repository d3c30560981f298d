//! Values that exist in proofs alone: a snapshot tells clauses of a value that no run-time value need have.
#![tactic(auto)]

ghost use Rattle.std.specs.Prelude.{◌≡◌, ◌∷◌, [], ◌++◌};
ghost use base.Fml.{ftrue};

use std::alloc::Global;
use std::collections::LinkedList;
use std::marker::{Model, PhantomData};

#[cfg(test)]
mod tests;

/// A `T` as clauses see it. It has no bytes and owns nothing, so only clauses tie `value`.
pub struct Snapshot<T> {
    marker: PhantomData<T>,
    pub ghost value: { T },
}

impl<T> Model for Snapshot<T> {
    ghost also_owns = { λ _. ftrue };
}

impl<T> Snapshot<T> {
    /// A snapshot of `x` as it is now.
    pub fn of(x: &T) -> Snapshot<T>
        ensures { result.value ≡ x.now }
    {
        let _ = x;
        Snapshot {
            marker: PhantomData,
        }
    }
}

unsafe impl<T> Send for Snapshot<T> {}

unsafe impl<T> Sync for Snapshot<T> {}

impl<T> Drop for Snapshot<T> {
    fn drop(self) {
        let Self { marker: _ } = self;
    }
}

/// A snapshot of what `told` tells of.
pub fn copy_of<T>(told: &Snapshot<T>) -> Snapshot<T>
    ensures { result.value ≡ told.now.value }
{
    let _ = told;
    Snapshot {
        marker: PhantomData,
    }
}

/// A snapshot of the empty list. It takes no memory.
pub fn blank<T: Drop>(alloc: Global) -> Snapshot<LinkedList<T>>
    ensures { result.value ≡ [] }
{
    let empty: LinkedList<T> = LinkedList::new(alloc);
    Snapshot::of(&empty)
}

/// How the next value that a snapshot tells of follows from the one before and an `X`.
pub trait GhostChange<T, X> {
    ghost changed: { T → X → T };
}

/// Changes what `told` tells of as `C` says. It does nothing at run time.
pub fn apply<C: GhostChange<T, X>, T, X>(told: &mut Snapshot<T>, by: &X)
    ensures { told.new.value ≡ C.changed told.old.value by.now }
{
    let _ = by;
}

// One more element at the end of a list.
struct Appends;

impl<T> GhostChange<LinkedList<T>, T> for Appends {
    ghost changed = { λ xs x. xs ++ x ∷ [] };
}

// A slice's elements, in order, at the end of a list.
struct AppendsAll;

impl<'a, T> GhostChange<LinkedList<T>, &'a [T]> for AppendsAll {
    ghost changed = { λ xs ys. xs ++ ys.now };
}

/// Adds `x` at the end of the list that `list` tells of. It does nothing at run time.
pub fn append<T>(list: &mut Snapshot<LinkedList<T>>, x: &T)
    ensures { list.new.value ≡ list.old.value ++ x.now ∷ [] }
{
    apply::<Appends, LinkedList<T>, T>(list, x);
}

/// Adds `xs`, in order, at the end of the list that `list` tells of. It does nothing at run time.
pub fn append_all<T>(list: &mut Snapshot<LinkedList<T>>, xs: &[T])
    ensures { list.new.value ≡ list.old.value ++ xs.now }
{
    apply::<AppendsAll, LinkedList<T>, &[T]>(list, &xs);
}
