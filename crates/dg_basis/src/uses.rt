//! Callers: threads share nodes, and what is known of one.
use crate::{Basis, NodeRec};

fn is_shared<X: Send + Sync>(_shared: &X) {}

pub(crate) fn shares_nodes(basis: &Basis) {
    is_shared::<Basis>(basis);
}

pub(crate) fn shares_node(node_rec: &NodeRec) {
    is_shared::<NodeRec>(node_rec);
}
