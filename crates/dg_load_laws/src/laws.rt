//! Laws of loads: each function here has an empty body, and its contract states what holds of the load of every tree.
ghost use Rattle.dg_load_laws.specs.Laws.{BoundNamesAreMade, BoundNamesAreNodes, EachMakeHasAnId, LimitsAloneRefuse};

/// The steps of a load, done on the empty graph, are refused for nothing but the limits of nodes and of arcs.
pub fn limits_alone_refuse()
    ensures { LimitsAloneRefuse }
{}

/// Each name that a load binds stands for one of the nodes that its steps make. Once the steps are accepted, each of these
/// has an id, and the name's is that of a node of the graph.
pub fn bound_names_are_made()
    ensures names { BoundNamesAreMade }
    ensures ids { EachMakeHasAnId }
    ensures nodes { BoundNamesAreNodes }
{}
