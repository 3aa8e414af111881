//! The order of keys.
ghost use Rattle.std.specs.Prelude.{◌≡◌};
ghost use Rattle.std.specs.Ordering.{is_lt, is_eq};

use std::cmp::Ordering;

/// Whether the key stands before the other.
pub(crate) fn is_below<K: Ord>(key: &K, other: &K) -> bool
    ensures { result ≡ is_lt (K.cmp key.now other.now) }
{
    match key.cmp(other) {
        Ordering::Less => true,
        Ordering::Equal => false,
        Ordering::Greater => false,
    }
}

/// Whether the keys are equal.
pub(crate) fn is_same<K: Ord>(key: &K, other: &K) -> bool
    ensures { result ≡ is_eq (K.cmp key.now other.now) }
{
    match key.cmp(other) {
        Ordering::Less => false,
        Ordering::Equal => true,
        Ordering::Greater => false,
    }
}
