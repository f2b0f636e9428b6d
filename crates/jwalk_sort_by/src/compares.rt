//! What compares two entries: a closure that compares them, or one that returns a key of each.
ghost use Rattle.std.specs.declared.cmp.Ordering.{Ordering};

use std::cmp::Ordering;

/// What compares two values of a type. With it a walk's entries can be sorted whatever their states and allocator are.
pub trait Compares<T>: Drop {
    /// It may always be called.
    ghost IsCallable: { Self → Type 0 };

    /// What a comparison of two values may return.
    ghost gives: { Self → T → T → Ordering → Type 0 };

    /// Compares two values.
    fn compare(&self, a: &T, b: &T) -> Ordering
        requires { IsCallable self.now }
        ensures { gives self.now a.now b.now result };
}

/// A closure that compares two values.
#[derive(Drop)]
pub struct ByOrder<F> {
    compare: F,
}

impl<F> ByOrder<F> {
    ghost use Rattle.std.specs.Prelude.{◌≡◌};

    pub(crate) fn new(compare: F) -> Self
        ensures { result.compare ≡ compare }
    {
        ByOrder { compare }
    }
}

impl<T, F: Fn(&T, &T) -> Ordering + Drop> Compares<T> for ByOrder<F> {
    ghost use Rattle.std.specs.Prelude.{◌≡◌};

    ghost IsCallable = { λ s. F.IsAlwaysCallable s.compare };

    ghost gives = { λ s a b order. (x : _) × (y : _) × (x.now ≡ a) × (y.now ≡ b) × F.post s.compare x y order };

    fn compare(&self, a: &T, b: &T) -> Ordering {
        (self.compare)(a, b)
    }
}

/// A closure that returns a key, by which values are compared.
#[derive(Drop)]
pub struct ByKey<F> {
    key: F,
}

impl<F> ByKey<F> {
    ghost use Rattle.std.specs.Prelude.{◌≡◌};

    pub(crate) fn new(key: F) -> Self
        ensures { result.key ≡ key }
    {
        ByKey { key }
    }
}

impl<T, K: Ord + Drop, F: Fn(&T) -> K + Drop> Compares<T> for ByKey<F> {
    ghost use Rattle.std.specs.Prelude.{◌≡◌};

    ghost IsCallable = { λ s. F.IsAlwaysCallable s.key };

    ghost gives = { λ s a b order. (x : _) × (y : _) × (x.now ≡ a) × (y.now ≡ b)
        × (k : _) × (l : _) × F.post s.key x k × F.post s.key y l × (order ≡ K.cmp k l) };

    fn compare(&self, a: &T, b: &T) -> Ordering {
        (self.key)(a).cmp(&(self.key)(b))
    }
}
