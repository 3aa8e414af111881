//! Blocks of a script, and the steps that their words are.
use crate::{Bindings, MissingAt, bind_steps};
use dg_base::{Names, NodeId, Refusal};
use dg_script::{Act, Command, StepWords, read_script};
use std::alloc::{AllocError, Global};
use std::test::Fail;

/// The steps of a block, where `a` is bound to 1 and `b` to 2: what they are bound as, and how many
/// names are interned then.
static BLOCKS: [(&str, &str); 26] = [
    (
        "make Num n\nset n.value 1\nset a.value true",
        "[Make { kind: Kind(1) }, Set { node: New(0), label: Label(1), value: Dec(1000000000) }, Set { node: Id(NodeId(1)), label: Label(1), value: Flag(true) }] [Str { text: \"n\" }] 0",
    ),
    (
        "delete a\nmake Sum a\ndelete a\noverride a a\ndelete a\ndelete b",
        "[Delete { node: Id(NodeId(1)) }, Make { kind: Kind(2) }, Delete { node: New(0) }, Override { root: New(0) }, Delete { node: New(1) }, Delete { node: Id(NodeId(2)) }] [Str { text: \"a\" }, Str { text: \"a\" }] 0",
    ),
    (
        "delete a@b",
        "[Delete { node: In { root: Boxed { inner: Id(NodeId(2)) }, original: Boxed { inner: Id(NodeId(1)) } } }] [] 0",
    ),
    (
        "override o a\ndelete b@a@o",
        "[Override { root: Id(NodeId(1)) }, Delete { node: In { root: Boxed { inner: New(0) }, original: Boxed { inner: In { root: Boxed { inner: Id(NodeId(1)) }, original: Boxed { inner: Id(NodeId(2)) } } } } }] [Str { text: \"o\" }] 0",
    ),
    (
        "set a:x hash \"h\"\nclear b:y\nclear b:x\nclear a.id\ndefective a on",
        "[Set { node: Id(NodeId(1)), label: Label(1024), value: Prop(PropVal { name: Label(1024), ptype: Hash, text: Str { text: \"h\" } }) }, Clear { node: Id(NodeId(2)), label: Label(1025) }, Clear { node: Id(NodeId(2)), label: Label(1024) }, Clear { node: Id(NodeId(1)), label: Label(11) }, Mark { node: Id(NodeId(1)), defective: true }] [] 2",
    ),
    (
        "connect a.value b.terms\ndisconnect b.total a.extra",
        "[Connect { src: Id(NodeId(1)), label: Label(1), node: Id(NodeId(2)), input: Label(2) }, Disconnect { src: Id(NodeId(2)), label: Label(4), node: Id(NodeId(1)), input: Label(3) }] [] 0",
    ),
    ("", "[] [] 0"),
    ("delete n\nmake Num n", "step 1 NoName 0"),
    ("make Num n\noverride m m", "step 2 NoName 0"),
    ("delete x@y", "step 1 NoName 0"),
    ("delete a@y", "step 1 NoName 0"),
    ("delete x@a", "step 1 NoName 0"),
    ("delete a@", "step 1 NoName 0"),
    ("delete @a", "step 1 NoName 0"),
    ("delete a@x@b", "step 1 NoName 0"),
    ("delete \"\"", "step 1 NoName 0"),
    ("defective x on", "step 1 NoName 0"),
    ("connect a.foo x.value", "step 1 NoName 0"),
    ("connect x.value a.value", "step 1 NoName 0"),
    ("connect a.foo b.value", "step 1 NoLabel 0"),
    ("disconnect a.value b.foo", "step 1 NoLabel 0"),
    ("disconnect a.foo x.foo", "step 1 NoName 0"),
    ("set n.foo 1", "step 1 NoName 0"),
    ("clear a.1", "step 1 NoLabel 0"),
    (
        "clear a:x\nset a:x url \"\"\nset n:y url \"\"\ndelete n",
        "step 3 NoName 1",
    ),
    ("clear a:x\nset a:y url \"\"\nset a.y 1", "step 3 NoLabel 2"),
];

fn bound(alloc: Global) -> Result<Bindings, AllocError> {
    let mut bindings = Bindings::new(alloc);
    bindings.bind("a", NodeId(7))?;
    bindings.bind("b", NodeId(2))?;
    bindings.bind("a", NodeId(1))?;
    Ok(bindings)
}

/// What the steps are bound as.
fn outcome(alloc: Global, steps: &[StepWords]) -> Result<String, AllocError> {
    let bindings = bound(alloc)?;
    let mut names = Names::new(alloc);
    match bind_steps(alloc, &bindings, &mut names, steps) {
        Ok(bound) => {
            let (steps, new_names) = (bound.steps.as_slice(), bound.new_names.as_slice());
            Ok(format!(in alloc; "{steps:?} {new_names:?} {}", names.count())?)
        }
        Err(Refusal::Because(MissingAt { step, missing })) => {
            Ok(format!(in alloc; "step {step} {missing:?} {}", names.count())?)
        }
        Err(Refusal::NoMemory) => Err(AllocError),
    }
}

/// That of the one block of a script.
fn outcome_of(alloc: Global, block: &str) -> Result<String, AllocError> {
    let script = format!(in alloc; "begin\n{block}\nend")?;
    let Ok(commands) = read_script(alloc, script.as_bytes()) else {
        return Ok(String::new(alloc));
    };
    match commands.as_slice().first() {
        Some(
            Command {
                act: Act::Block { steps },
                ..
            },
        ) => outcome(alloc, steps.as_slice()),
        _ => Ok(String::new(alloc)),
    }
}

/// The first case that is bound otherwise, or how many there are.
fn first_other(alloc: Global, cases: &[(&str, &str)]) -> Result<usize, AllocError> {
    for (place, case) in cases.iter().enumerate() {
        if outcome_of(alloc, case.0)?.as_str() != case.1 {
            return Ok(place);
        }
    }
    Ok(cases.len())
}

#[test]
fn binds_steps_up_to_the_first_that_misses_something(rt: HostRuntime) -> Result<(), Fail> {
    assert_eq!(rt; first_other(rt.alloc(), &BLOCKS)?, 26);
    Ok(())
}
