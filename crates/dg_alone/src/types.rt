//! The types of a play on one thread.
use dg_desk::Desk;
use dg_editor::Editor;
use dg_kinds_coll::Defold;
use dg_line::{OwnLine, Revision, Ticket, Unmarked};
use dg_world::World;

/// The mark of the tickets of a script's revisions.
pub type AloneMark = Unmarked<Revision<Defold>>;

/// The line that a script's revisions stand on.
pub type AloneLine = OwnLine<Revision<Defold>>;

/// The ticket of a script's revision.
pub type AloneTicket = Ticket<AloneMark>;

/// The editor that a script's edits are played on.
pub type AloneEditor = Editor<Defold, AloneLine>;

/// The editor of a script with the cache that follows it.
pub type AloneWorld = World<Defold, AloneLine>;

/// The cache of a script, and the records of what was done with it.
pub type AloneDesk = Desk<AloneMark>;
