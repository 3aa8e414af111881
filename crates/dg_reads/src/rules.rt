//! The rule of an endpoint: which value it has, or which endpoints give it, its dependencies.
ghost use Rattle.std.specs.Prelude.{◌≡◌, IfOk, map};
ghost use Rattle.dg_base.specs.Sound.{IsLinked};
ghost use Rattle.dg_base.specs.Chain.{chain};
ghost use Rattle.dg_base.specs.Rule.{arg_rule_of, dependencies, is_defective, open_rule, output_rule, property_rule, rule_by, rule_of, without_own};

use crate::chains::kind;
use crate::core_reads::{CoreReads, is_linked};
use crate::inputs::sources;
use crate::open_properties::{has_open, open_values};
use dg_answer::named_by;
use dg_base::{
    ArgRule, ArgRules, ArgSpec, Datum, Endpoint, Ends, Kind, Label, NodeId, Origin, Role, Rule,
    Schema,
};
use smallvec::SmallVec;
use std::alloc::AllocError;

/// How the value of an endpoint is found. It reads the chain of its node and the values there, and at
/// an output also the sources of each of its inputs.
pub fn rule<S: Schema, G: CoreReads<S>>(graph: &G, at: Endpoint) -> Result<Rule, AllocError>
    ensures { IfOk result (λ r. r ≡ rule_of S.tables (G.graph graph.now) at) }
{
    is_linked(graph);
    let Some(kind) = kind(graph, at.node) else {
        return Ok(Rule::Absent);
    };
    rule_by(graph, kind, at)
}

/// The endpoints that the rule of an endpoint names, in order. In the time that `rule` takes.
pub fn dependencies<S: Schema, G: CoreReads<S>>(
    graph: &G,
    at: Endpoint,
) -> Result<Vec<Endpoint>, AllocError>
    ensures { IfOk result (λ v. v.items ≡ dependencies S.tables (G.graph graph.now) at) }
{
    let rule = rule(graph, at)?;
    named_by(graph.alloc(), &rule)
}

fn rule_by<S: Schema, G: CoreReads<S>>(
    graph: &G,
    kind: Kind,
    at: Endpoint,
) -> Result<Rule, AllocError>
    requires { IsLinked (G.graph graph.now) }
    ensures { IfOk result (λ r. r ≡ rule_by S.tables (G.graph graph.now) kind (chain (G.graph graph.now) at.node) at (S.tables.role kind at.label)) }
{
    match S::role(kind, at.label) {
        Role::Nothing => open_rule(graph, kind, at.node, at.label),
        Role::Property(_) => {
            let preset = S::default(graph.alloc(), kind, at.label)?;
            property_rule(graph, at.node, at.label, preset)
        }
        Role::Output { .. } => output_rule(graph, kind, at),
        Role::Input { .. } => Ok(Rule::Absent),
    }
}

fn open_rule<S: Schema, G: CoreReads<S>>(
    graph: &G,
    kind: Kind,
    node: NodeId,
    label: Label,
) -> Result<Rule, AllocError>
    requires { IsLinked (G.graph graph.now) }
    ensures { IfOk result (λ r. r ≡ open_rule S.tables kind (chain (G.graph graph.now) node) label) }
{
    if S::is_open(kind) && label.is_open() && has_open(graph, node, label) {
        property_rule(graph, node, label, Datum::Nil)
    } else {
        Ok(Rule::Absent)
    }
}

fn property_rule<S: Schema, G: CoreReads<S>>(
    graph: &G,
    node: NodeId,
    label: Label,
    preset: Datum,
) -> Result<Rule, AllocError>
    requires { IsLinked (G.graph graph.now) }
    ensures { IfOk result (λ r. r ≡ property_rule (chain (G.graph graph.now) node) label preset) }
{
    let Some(origin) = graph.origin(node) else {
        return Ok(Rule::Absent);
    };
    match graph.property(node, label) {
        Some(value) => Ok(Rule::Own(value.copy(graph.alloc())?)),
        None => Ok(without_own(label, preset, origin)),
    }
}

// A property without an own value reads its original's, or has its default.
fn without_own(label: Label, preset: Datum, origin: Origin) -> Rule
    ensures { result ≡ without_own label preset origin }
{
    match origin {
        Origin::Plain(_) => Rule::Default(preset),
        Origin::Over { original, .. } => Rule::From(Endpoint {
            node: original,
            label,
        }),
    }
}

fn output_rule<S: Schema, G: CoreReads<S>>(
    graph: &G,
    kind: Kind,
    at: Endpoint,
) -> Result<Rule, AllocError>
    requires { IsLinked (G.graph graph.now) }
    ensures { IfOk result (λ r. r ≡ output_rule S.tables (G.graph graph.now) kind (chain (G.graph graph.now) at.node) at) }
{
    if is_defective(graph, at.node) {
        return Ok(Rule::Defective);
    }
    let args = arg_rules(graph, at, S::args(kind, at.label))?;
    Ok(Rule::Call {
        kind,
        label: at.label,
        args,
    })
}

// Whether a node of the chain is marked.
fn is_defective<S: Schema, G: CoreReads<S>>(graph: &G, node: NodeId) -> bool
    requires { IsLinked (G.graph graph.now) }
    ensures { result ≡ is_defective (chain (G.graph graph.now) node) }
{
    let mut at = node;
    while let Some(origin) = graph.origin(at) {
        if graph.is_marked(at) {
            return true;
        }
        match origin {
            Origin::Over { original, .. } => at = original,
            Origin::Plain(_) => return false,
        }
    }
    false
}

fn arg_rules<S: Schema, G: CoreReads<S>>(
    graph: &G,
    at: Endpoint,
    args: &[ArgSpec],
) -> Result<ArgRules, AllocError>
    ensures { IfOk result (λ rs. rs ≡ map (arg_rule_of (G.graph graph.now) at.node (chain (G.graph graph.now) at.node)) args.now) }
{
    let mut rules = SmallVec::new(graph.alloc());
    for arg in args {
        rules.push(arg_rule(graph, at, *arg)?)?;
    }
    Ok(ArgRules::of(rules))
}

fn arg_rule<S: Schema, G: CoreReads<S>>(
    graph: &G,
    at: Endpoint,
    arg: ArgSpec,
) -> Result<ArgRule, AllocError>
    ensures { IfOk result (λ r. r ≡ arg_rule_of (G.graph graph.now) at.node (chain (G.graph graph.now) at.node) arg) }
{
    Ok(match arg {
        ArgSpec::Own(label) => ArgRule::Own(Endpoint {
            node: at.node,
            label,
        }),
        ArgSpec::Input(input) => ArgRule::Input {
            input,
            sources: Ends::from_vec(sources(graph, at.node, input)?),
        },
        ArgSpec::Open => ArgRule::Open(open_values(graph, at.node)?),
    })
}
