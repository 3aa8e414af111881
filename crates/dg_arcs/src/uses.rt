//! A caller: threads share arcs.
use crate::Arcs;

fn is_shared<X: Send + Sync>(_shared: &X) {}

pub(crate) fn shares_arcs(arcs: &Arcs) {
    is_shared::<Arcs>(arcs);
}
