//! Worked cases: each function here has an empty body, and its contract states what the definitions
//! give on a small graph of `specs/Worked.antt`. The checker computes them.
ghost use Rattle.std.specs.Prelude.{◌≡◌, [], ◌∷◌, Ok, Err, Some, None, pos};
ghost use Rattle.dg_base.specs.declared.answer.Answer.TheVariants as answer;
ghost use Rattle.dg_base.specs.declared.answer.FaultCode.TheVariants as code;
ghost use Rattle.dg_base.specs.declared.datum.Datum.TheVariants as datum;
ghost use Rattle.dg_base.specs.declared.rule.Rule.TheVariants as rule;
ghost use Rattle.dg_base.specs.declared.step.TxCode.TheVariants as tx;
ghost use Rattle.dg_base.specs.Chain.{heirs};
ghost use Rattle.dg_base.specs.Changes.{with_value};
ghost use Rattle.dg_base.specs.Dirty.{dirty};
ghost use Rattle.dg_base.specs.Graph.{empty};
ghost use Rattle.dg_base.specs.Evaluation.{evaluated, nothing_evaluated, productions, cached_outputs};
ghost use Rattle.dg_base.specs.First.{num, value, terms, extra, total, first_tables, owning_tables};
ghost use Rattle.dg_base.specs.Owned.{cascade_tree, doomed};
ghost use Rattle.dg_base.specs.Rule.{rule_of, dependencies};
ghost use Rattle.dg_base.specs.Sound.{IsSound, arc_fits};
ghost use Rattle.dg_base.specs.Sources.{sources};
ghost use Rattle.dg_base.specs.Steps.{make_step, set_step, connect_step};
ghost use Rattle.dg_base.specs.Touched.{touched_values};
ghost use Rattle.dg_base.specs.Transact.{applied};
ghost use Rattle.dg_base.specs.Value.{value_at, good, one_fault};
ghost use Rattle.dg_base.specs.Worked.{at, arc_from, node_id, whole, three_and_four, ten_large, own_term, marked_source, marked_property, inheriting, replaced_source, explicit_source, kept_of, two_extras, one_extra, other_extra, begun, third_refused, owning, overridden, not_overridden, apart, twice_overridden, twice_populated, done, deletes, sets, connects, disconnects, three_sums, shown, open_tables, speed, open_inherited, productions_of};

/// Two numbers and their sum.
pub fn adds()
    ensures value { value_at first_tables three_and_four (at 3 total) ≡ good (whole 7) }
    ensures reads { dependencies first_tables three_and_four (at 3 total) ≡ at 1 value ∷ at 2 value ∷ [] }
{}

/// A sum past the largest number is a fault of the sum.
pub fn overflows()
    ensures { value_at first_tables ten_large (at 11 total) ≡ one_fault (at 11 total) code.Range }
{}

/// An endpoint on a cycle and one that reaches it answer so, and no substitute hides it.
pub fn cycles()
    ensures on_it { value_at first_tables own_term (at 1 total) ≡ answer.Cycle }
    ensures reaches { value_at first_tables own_term (at 2 total) ≡ answer.Cycle }
{}

/// The outputs of a marked node are defective; a substitute stands in for such a source where the
/// input has one, and the faults are handed on where it has none. A marked node's properties stay
/// readable.
pub fn marks()
    ensures marked { value_at first_tables marked_source (at 1 total) ≡ one_fault (at 1 total) code.Defective }
    ensures replaced { value_at first_tables marked_source (at 2 total) ≡ good (whole 0) }
    ensures handed_on { value_at first_tables marked_source (at 3 total) ≡ one_fault (at 1 total) code.Defective }
    ensures readable { value_at first_tables marked_property (at 1 value) ≡ good (whole 5) }
{}

/// What isn't there has no rule.
pub fn absent()
    ensures node { value_at first_tables three_and_four (at 4 total) ≡ one_fault (at 4 total) code.NoEndpoint }
    ensures input { rule_of first_tables three_and_four (at 3 terms) ≡ rule.Absent }
{}

/// An override node reads its original's value until it has its own.
pub fn inherits()
    ensures from { rule_of first_tables inheriting (at 2 value) ≡ rule.From (at 1 value) }
    ensures inherited { value_at first_tables inheriting (at 2 value) ≡ good (whole 5) }
    ensures own { value_at first_tables inheriting (at 3 value) ≡ good (whole 6) }
    ensures heirs { heirs inheriting (node_id 1) ≡ node_id 1 ∷ node_id 2 ∷ node_id 3 ∷ [] }
{}

/// Inherited sources are replaced by the override nodes of the same override, and explicit sources
/// replace all inherited ones.
pub fn replaces()
    ensures original { sources replaced_source (node_id 2) terms ≡ at 1 value ∷ [] }
    ensures replaced { sources replaced_source (node_id 3) terms ≡ at 4 value ∷ [] }
    ensures value { value_at first_tables replaced_source (at 3 total) ≡ good (whole 6) }
    ensures explicit { value_at first_tables explicit_source (at 3 total) ≡ good (whole 8) }
    ensures untouched { value_at first_tables explicit_source (at 2 total) ≡ good (whole 5) }
{}

/// Of 65 different faults the first 64 are kept.
pub fn keeps_64()
    ensures { kept_of 65 ≡ 64 }
{}

/// A graph may be sound or not.
pub fn is_checked()
    ensures sound { IsSound first_tables replaced_source }
    ensures unsound { IsSound first_tables two_extras → ⊥ }
{}

/// A step gives a graph, or the first code that fits: no such node, then the source, the input, the
/// types. An arc that is there already changes nothing, and into a single input the new arc
/// replaces the old one.
pub fn steps()
    ensures set { set_step first_tables (begun three_and_four 4) (Some (node_id 1)) value (whole 5)
        ≡ Ok (begun (with_value three_and_four (node_id 1) value (whole 5)) 4) }
    ensures no_property { set_step first_tables (begun three_and_four 4) (Some (node_id 3)) value (whole 5) ≡ Err tx.NotProperty }
    ensures wrong_type { set_step first_tables (begun three_and_four 4) (Some (node_id 1)) value datum.Nil ≡ Err tx.ValueType }
    ensures no_node { connect_step first_tables (begun three_and_four 4) None terms (Some (node_id 1)) terms ≡ Err tx.NoNode }
    ensures not_output { connect_step first_tables (begun three_and_four 4) (Some (node_id 3)) terms (Some (node_id 1)) terms ≡ Err tx.NotOutput }
    ensures not_input { connect_step first_tables (begun three_and_four 4) (Some (node_id 1)) value (Some (node_id 3)) total ≡ Err tx.NotInput }
    ensures again { connect_step first_tables (begun three_and_four 4) (Some (node_id 1)) value (Some (node_id 3)) terms
        ≡ Ok (begun three_and_four 4) }
    ensures replaces { connect_step first_tables (begun one_extra 4) (Some (node_id 2)) value (Some (node_id 3)) extra ≡ Ok (begun other_extra 4) }
    ensures too_many { make_step (begun three_and_four 262145) num ≡ Err tx.TooManyNodes }
{}

/// A transaction whose third step is refused says so, and gives no graph.
pub fn refuses_the_third()
    ensures { applied first_tables three_and_four 4 third_refused ≡ Err (record { step = 3; code = tx.NoNode }) }
{}

/// A cascade tree lists what is owned when it is first met; a deletion takes all of it.
pub fn cascades()
    ensures tree { cascade_tree owning_tables owning (node_id 4) ≡ node_id 4 ∷ node_id 3 ∷ node_id 2 ∷ node_id 1 ∷ [] }
    ensures doomed { doomed owning_tables owning (node_id 3) ≡ node_id 1 ∷ node_id 2 ∷ node_id 3 ∷ [] }
{}

/// Deleting an override's root takes its override nodes and not the originals, and touches what
/// went. Deleting an original takes its override nodes.
pub fn deletes_overrides()
    ensures root { applied owning_tables overridden 5 (deletes 3) ≡ Ok (done not_overridden 5 (at 3 total ∷ at 4 value ∷ [])) }
    ensures original { doomed owning_tables overridden (node_id 1) ≡ node_id 1 ∷ node_id 4 ∷ [] }
{}

/// A source that is connected to an original is populated into its override, and from there into the
/// override of that.
pub fn populates()
    ensures { applied owning_tables twice_overridden 5 (connects 4 value 1 terms)
        ≡ Ok (done twice_populated 7 (at 1 total ∷ at 2 total ∷ at 3 total ∷ at 5 value ∷ at 6 value ∷ [])) }
{}

/// A source that is disconnected isn't deleted, though it was owned.
pub fn keeps_what_is_disconnected()
    ensures { applied owning_tables not_overridden 3 (disconnects 1 value 2 terms) ≡ Ok (done apart 3 (at 2 total ∷ [])) }
{}

/// A value that is set touches the property at each heir.
pub fn touches_heirs()
    ensures { applied first_tables inheriting 4 (sets 1 7)
        ≡ Ok (done (with_value inheriting (node_id 1) value (whole 7)) 4 (at 1 value ∷ at 2 value ∷ at 3 value ∷ [])) }
{}

/// Dirty is all that depends on what was touched: over three steps, but not what depends on other
/// endpoints alone. What was touched is dirty also where it isn't in the graph.
pub fn spreads()
    ensures three_steps { dirty first_tables three_sums (at 1 value ∷ []) ≡ at 1 value ∷ at 2 total ∷ at 3 total ∷ at 4 total ∷ [] }
    ensures one_step { dirty first_tables three_sums (at 5 value ∷ []) ≡ at 4 total ∷ at 5 value ∷ [] }
    ensures absent { dirty first_tables three_sums (at 9 value ∷ []) ≡ at 9 value ∷ [] }
{}

/// An open value is inherited as a property is, and so made dirty. The output that reads open values has
/// no dependency on it: a step that sets the value touches that output itself.
pub fn spreads_to_heirs()
    ensures inherited { dirty open_tables open_inherited (at 1 speed ∷ []) ≡ at 1 speed ∷ at 2 speed ∷ [] }
    ensures no_dependency { dependencies open_tables open_inherited (at 1 shown) ≡ [] }
    ensures touched { touched_values open_tables open_inherited (Some (node_id 1)) speed ≡ at 1 speed ∷ at 1 shown ∷ at 2 speed ∷ at 2 shown ∷ [] }
{}

/// A production counts where its rule is a call, no dependency is a cycle and no argument stays bad.
pub fn counts_productions()
    ensures call { productions_of three_and_four (at 3 total) ≡ 1 }
    ensures property { productions_of three_and_four (at 1 value) ≡ 0 }
    ensures cycle { productions_of own_term (at 2 total) ≡ 0 }
    ensures substitute { productions_of marked_source (at 2 total) ≡ 1 }
    ensures bad { productions_of marked_source (at 3 total) ≡ 0 }
{}

/// A walk lists the node that it begins at, also where that isn't there.
pub fn walks_from_anywhere()
    ensures tree { cascade_tree owning_tables empty (node_id 7) ≡ node_id 7 ∷ [] }
    ensures doomed { doomed owning_tables owning (node_id 7) ≡ node_id 7 ∷ [] }
{}

/// An evaluation lists what an endpoint depends on before the endpoint, each once; a cycle ends it; a
/// known endpoint isn't entered and is a hit. An override node's property leads to its original's.
pub fn evaluates()
    ensures all { evaluated first_tables three_and_four [] nothing_evaluated (at 3 total)
        ≡ record { listed = at 1 value ∷ at 2 value ∷ at 3 total ∷ []; hits = [] } }
    ensures known { evaluated first_tables three_and_four (at 2 value ∷ []) nothing_evaluated (at 3 total)
        ≡ record { listed = at 1 value ∷ at 3 total ∷ []; hits = at 2 value ∷ [] } }
    ensures cycle { evaluated first_tables own_term [] nothing_evaluated (at 2 total)
        ≡ record { listed = at 1 total ∷ at 2 total ∷ []; hits = [] } }
    ensures original { evaluated first_tables inheriting [] nothing_evaluated (at 2 value)
        ≡ record { listed = at 1 value ∷ at 2 value ∷ []; hits = [] } }
    ensures productions { productions first_tables three_and_four (at 1 value ∷ at 2 value ∷ at 3 total ∷ []) ≡ 1 }
    ensures faulted { productions first_tables marked_source (at 1 total ∷ at 3 total ∷ []) ≡ 0 }
    ensures entries { cached_outputs first_tables three_and_four (at 1 value ∷ at 2 value ∷ at 3 total ∷ []) ≡ at 3 total ∷ [] }
{}
