//! What a play begins with.
use dg_base::Names;
use dg_bind::Bindings;

/// An editor that was opened, the names of its nodes, and the interned names. No pin is live.
#[derive(Drop)]
pub struct Begin<X> {
    pub game: X,
    pub bound: Bindings,
    pub names: Names,
}
