//! What a script that is played has at a moment.
ghost use Rattle.std.specs.Prelude.{◌≡◌, ◌≤◌, OnOk};
ghost use Rattle.dg_play.specs.Play.{bind_made};

use crate::pins::Pin;
use dg_base::{Names, NodeId, Str};
use dg_bind::Bindings;
use std::alloc::AllocError;

/// What the commands are played in, its live pins, the names of nodes, and the interned names.
#[derive(Drop)]
pub struct State<P> {
    pub session: P,
    pub pins: Vec<Pin>,
    pub bound: Bindings,
    pub names: Names,
}

/// Binds each name to the node at its place.
pub(crate) fn bind_made(
    bound: &mut Bindings,
    names: &[Str],
    nodes: &[NodeId],
) -> Result<(), AllocError>
    ensures { OnOk result (bound.new ≡ bind_made bound.old names.now nodes.now) }
{
    let mut place = 0;
    while place < names.len() && place < nodes.len() {
        bound.bind(names[place].as_str(), nodes[place])?;
        place += 1;
    }
    Ok(())
}
