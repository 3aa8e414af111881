//! What is known of a node.
ghost use Rattle.std.specs.Prelude.{◌≡◌, [], false};

use dg_base::{Datum, Label, Origin};
use dg_pmap::{Kept, PMap, Share};
use std::alloc::{AllocError, Global};

/// What is known of a node: its origin, the mark "defective", and its own values by label. A share of
/// it shares the values.
#[derive(Drop)]
pub struct NodeRec {
    pub origin: Origin,
    pub defective: bool,
    pub own: PMap<Label, Kept<Datum>>,
}

impl NodeRec {
    /// A node without own values that isn't marked. It takes no memory.
    pub fn new(alloc: Global, origin: Origin) -> NodeRec
        ensures { result ≡ record { origin = origin; defective = false; own = [] } }
    {
        NodeRec {
            origin,
            defective: false,
            own: PMap::new(alloc),
        }
    }
}

impl Share for NodeRec {
    fn share(&self) -> Result<NodeRec, AllocError> {
        Ok(NodeRec {
            origin: self.origin,
            defective: self.defective,
            own: self.own.share()?,
        })
    }
}
