//! A caller: threads share a set.
use crate::Succ;

fn is_shared<X: Send + Sync>(_shared: &X) {}

pub(crate) fn shares_set(set: &Succ) {
    is_shared::<Succ>(set);
}
