//! A world: an editor, a desk, pins and offers, and every event between them.
//!
//! [`World::open`] takes an editor that was opened before. [`World::step`] is one event: an edit, an undo or a redo,
//! which the desk follows; a pin at the current revision; the evaluation of an endpoint at a pin, with what the desk
//! knows; the publication of an offer of any age, any number of times; an eviction; the drop of a pin. Each event is
//! also a call of its own. `specs/Steps` says what each answers and leaves, and `specs/Laws` what holds whatever
//! events led there: the desk is coherent and at the editor's revision, and each offer is right. [`evaluated`] is an
//! evaluation alone, for who has a desk and its line.
#![tactic(auto)]

// What happens, and what it answers.
mod event;
// What an event does to the desk.
mod acts;
// The world.
#[cfg(test)]
mod tests;
mod world;

pub use acts::{Found, evaluated};
pub use event::{Event, Outcome};
pub use world::World;
