//! What the words of a question name.
ghost use Rattle.std.specs.Prelude.{◌≡◌, IfOk};
ghost use Rattle.dg_bind.specs.Question.{node_in, node_of_question, label_of_question};

use crate::bindings::Bindings;
use crate::scope::Scope;
use dg_base::{Label, Names, NodeId, NodeRef, Schema};
use dg_labels::label_named;
use dg_script::EpWords;
use dg_view::Graph;
use std::alloc::{AllocError, Global};

/// The node that a word names in a graph. A bound name is its node, also where that was deleted;
/// names joined by `@` are the override node, where there is one.
pub fn node_of_question<S: Schema>(
    alloc: Global,
    graph: &Graph<S>,
    bindings: &Bindings,
    word: &str,
) -> Result<Option<NodeId>, AllocError>
    ensures { IfOk result (λ n. n ≡ node_of_question graph.now bindings.now word.now) }
{
    let scope = Scope {
        bindings,
        new_names: &[],
    };
    match scope.node(alloc, word)? {
        Some(reference) => Ok(node_in(graph, &reference)),
        None => Ok(None),
    }
}

/// The node that a reference stands for in a graph, outside a transaction: a given id as it is, the
/// override node of an original in the override of a root where there is one, and no node that a step
/// makes. As deep a recursion as the reference.
pub fn node_in<S: Schema>(graph: &Graph<S>, reference: &NodeRef) -> Option<NodeId>
    ensures { result ≡ node_in graph.now reference.now }
{
    match reference {
        NodeRef::Id(node) => Some(*node),
        NodeRef::New(_) => None,
        NodeRef::In { root, original } => {
            let root = node_in(graph, root.get())?;
            let original = node_in(graph, original.get())?;
            graph.override_in(root, original)
        }
    }
}

/// The label that the words of an endpoint name, where the schema has it or the open name is interned.
pub fn label_of_question(names: &Names, at: &EpWords) -> Option<Label>
    ensures { result ≡ label_of_question names.now at.now }
{
    if at.by_name {
        names.find(at.label.as_str())
    } else {
        label_named(at.label.as_str())
    }
}
