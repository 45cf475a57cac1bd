ghost use Rattle.std.specs.Prelude.{◌≡◌, IfOk};

use crate::rank::Exact;
use bufr_base::OutOfMemory;
use std::alloc::Global;
use std::cmp::Ordering;
use std::marker::Model;

/// A pair of key and value in a box, so that a vector moves eight octets for each. Contracts see
/// the pair.
#[derive(Drop)]
pub(crate) struct Pair<K, V> {
    held: Box<(K, V)>,
}

impl<K, V> Model for Pair<K, V> {
    ghost Value = { K × V };

    ghost view = { λ a. a.held.value };
}

impl<K: Drop, V: Drop> Pair<K, V> {
    pub(crate) fn new(alloc: Global, key: K, value: V) -> Result<Pair<K, V>, OutOfMemory>
        ensures { IfOk result (λ pair. pair ≡ (key, value)) }
    {
        Ok(Pair {
            held: Box::new(alloc, (key, value))?,
        })
    }

    pub(crate) fn replace(&mut self, key: K, value: V)
        ensures { self.new ≡ (key, value) }
    {
        *self.held = (key, value);
    }
}

impl<K, V> Pair<K, V> {
    pub(crate) fn key(&self) -> &K
        ensures { result.now ≡ self.now.0 }
    {
        &self.held.0
    }

    pub(crate) fn value(&self) -> &V
        ensures { result.now ≡ self.now.1 }
    {
        &self.held.1
    }
}

impl<K: Exact, V> Pair<K, V> {
    pub(crate) fn order(&self, other: &Pair<K, V>) -> Ordering
        ensures { result ≡ K.cmp self.now.0 other.now.0 }
    {
        self.key().cmp(other.key())
    }
}
