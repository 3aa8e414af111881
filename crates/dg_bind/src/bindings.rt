//! The names of a script and the nodes that they stand for.
ghost use Rattle.std.specs.Prelude.{◌≡◌, [], OnOk, OnErr};
ghost use Rattle.dg_bind.specs.Bindings.{bound_to, bind};

use dg_base::NodeId;
use indexmap::IndexMap;
use std::alloc::{AllocError, Global};
use std::marker::Model;

/// Names with their nodes, in the order in which they were first bound. Contracts see that list.
///
/// A name is looked up by its hash, in constant time on average beside its length.
#[derive(Drop)]
pub struct Bindings {
    alloc: Global,
    nodes: IndexMap<String, NodeId>,
}

impl Model for Bindings {
    ghost use Rattle.std.specs.Prelude.{List};
    ghost use Rattle.std.specs.Coded.{coded_list};
    ghost use Rattle.dg_bind.specs.Bindings.{Binding};
    ghost use Rattle.dg_bind.specs.Code.{binding_code, bindings_in};

    ghost Value = { List Binding };

    ghost coded = { coded_list binding_code };

    ghost view = { λ b. bindings_in b.nodes.entries };
}

impl Bindings {
    /// No name yet.
    pub fn new(alloc: Global) -> Bindings
        ensures { result ≡ [] }
    {
        Bindings {
            alloc,
            nodes: IndexMap::new(alloc),
        }
    }

    /// The node of a name.
    pub fn find(&self, name: &str) -> Option<NodeId>
        ensures { result ≡ bound_to self.now name.now }
    {
        self.nodes.get(name).copied()
    }

    /// Binds a name, in place of the node that it stood for. A refused call changes nothing.
    pub fn bind(&mut self, name: &str, node: NodeId) -> Result<(), AllocError>
        ensures ok { OnOk result (self.new ≡ bind self.old name.now node) }
        ensures err { OnErr result (self.new ≡ self.old) }
    {
        let name = String::from_str(self.alloc, name)?;
        self.nodes.insert(name, node)?;
        Ok(())
    }
}
