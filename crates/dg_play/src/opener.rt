//! How the editor of a start is opened.
ghost use Rattle.std.specs.Prelude.{◌≡◌, IfOk};
ghost use Rattle.dg_base.specs.Graph.{empty};
ghost use Rattle.dg_base.specs.Refusal.{Gives};
ghost use Rattle.dg_base.specs.Transact.{applied};
ghost use Rattle.dg_editor.specs.Machine.{made_by, opened};
ghost use Rattle.dg_kinds_coll.specs.Defold.{defold_tables};
ghost use Rattle.dg_play.specs.Seen.{graph_by};

use dg_base::{NodeId, Refusal, RefusedStep, Step};
use dg_kinds_coll::Defold;
use dg_view::Graph;
use sqlite_items::Items;
use std::alloc::Global;

/// A way to open an editor, over a line of one's own or over one that threads share. Contracts see the state of the
/// editor.
pub trait Opener {
    ghost use Rattle.dg_editor.specs.Machine.{State as Editor};

    /// An editor that was opened, and what a play over it needs.
    type Game: Drop;

    ghost editor: { Self.Game → Editor };

    /// An editor whose first revision has the graph of these steps, and the nodes that they made. It is refused as the
    /// steps are.
    fn open(
        self,
        alloc: Global,
        steps: &[Step],
    ) -> Result<(Self::Game, Items<NodeId>), Refusal<RefusedStep>>
        ensures opened { Gives (λ r. editor r.0) result (opened defold_tables steps.now) }
        ensures made { IfOk result (λ r. made_by (applied defold_tables empty 1 steps.now) ≡ r.1) };

    /// The graph of the editor's current revision.
    fn graph(game: &Self::Game) -> &Graph<Defold>
        ensures { result.now ≡ graph_by editor game.now };
}
