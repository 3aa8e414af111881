//! What is found among nodes in id order.
ghost use Rattle.std.specs.Prelude.{◌≡◌, ◌<◌, IfOk, IsTrue, filter, find, is_some, length, map, slice_get};
ghost use Rattle.std.specs.Option.{option_copied};
ghost use Rattle.dg_base.specs.Graph.{id_of, overrides};
ghost use Rattle.dg_base.specs.Order.{rises};
ghost use Rattle.dg_base.specs.Owned.{is_over};
ghost use Rattle.dg_base.specs.Rule.{is_open_label};
ghost use Rattle.dg_base.specs.Same.{same_node};
ghost use Rattle.dg_flat.specs.Lookup.{with_id};

use dg_base::{FieldOf, Fields, Node, NodeId, Origin};
use sqlite_items::at;
use std::alloc::{AllocError, Global};

// The node with an id, among nodes whose ids rise.
pub(crate) fn node_in(nodes: &[Node], node: NodeId) -> Option<&Node>
    requires { IsTrue (rises (map (λ x. x.id.0) nodes.now)) }
    ensures { option_copied result ≡ find (λ x. same_node x.id node) nodes.now }
{
    let place = nodes.partition_point(|known| known.id.0 < node.0);
    with_id(at(nodes, place), node)
}

fn with_id(found: Option<&Node>, node: NodeId) -> Option<&Node>
    ensures { option_copied result ≡ with_id node (option_copied found.entry) }
{
    let found = found?;
    if found.id.0 == node.0 {
        Some(found)
    } else {
        None
    }
}

// Where a node stands, among nodes whose ids rise.
pub(crate) fn place_in(nodes: &[Node], node: NodeId) -> usize
    requires rise { IsTrue (rises (map (λ x. x.id.0) nodes.now)) }
    requires there { IsTrue (is_some (find (λ x. same_node x.id node) nodes.now)) }
    ensures at { slice_get nodes.now result ≡ find (λ x. same_node x.id node) nodes.now }
    ensures within { result < length nodes.now }
{
    nodes.partition_point(|known| known.id.0 < node.0)
}

// The first override node of an original in the override that begins at a root.
pub(crate) fn override_among(nodes: &[Node], root: NodeId, original: NodeId) -> Option<NodeId>
    ensures { result ≡ id_of (find (λ x. overrides root original x.origin) nodes.now) }
{
    for node in nodes {
        if overrides(root, original, node.origin) {
            return Some(node.id);
        }
    }
    None
}

fn overrides(root: NodeId, original: NodeId, origin: Origin) -> bool
    ensures { result ≡ overrides root original origin }
{
    match origin {
        Origin::Plain(_) => false,
        Origin::Over {
            root: its_root,
            original: its_original,
        } => its_root.0 == root.0 && its_original.0 == original.0,
    }
}

// The override nodes whose original is this node.
pub(crate) fn overs_among(
    alloc: Global,
    nodes: &[Node],
    node: NodeId,
) -> Result<Vec<NodeId>, AllocError>
    ensures { IfOk result (λ v. v.items ≡ map (λ x. x.id) (filter (λ x. is_over node x.origin) nodes.now)) }
{
    nodes
        .iter()
        .filter(|known| is_over(node, known.origin))
        .map(|known| known.id)
        .collect(alloc)
}

fn is_over(node: NodeId, origin: Origin) -> bool
    ensures { result ≡ is_over node origin }
{
    match origin {
        Origin::Plain(_) => false,
        Origin::Over { original, .. } => original.0 == node.0,
    }
}

// The values at open labels, made anew.
pub(crate) fn open_among(alloc: Global, own: &[FieldOf]) -> Result<Fields, AllocError>
    ensures { IfOk result (λ fs. fs ≡ filter (λ f. is_open_label f.label) own.now) }
{
    let mut fields = Fields::new(alloc);
    for field in own {
        if field.label.is_open() {
            let value = field.value.copy(alloc)?;
            let label = field.label;
            if fields.push(FieldOf { label, value }).is_err() {
                return Err(AllocError);
            }
        }
    }
    Ok(fields)
}
