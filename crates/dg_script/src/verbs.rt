//! The commands by their first words.
ghost use Rattle.std.specs.Prelude.{◌≡◌};
ghost use Rattle.dg_script.specs.Acts.{step_named, asking_named, other_named, verb_named};

/// A command that is a step of a transaction.
#[derive(Debug, Clone, Copy)]
pub(crate) enum StepVerb {
    Make,
    Override,
    Set,
    Clear,
    Delete,
    Defective,
    Connect,
    Disconnect,
}

/// A command.
#[derive(Debug, Clone, Copy)]
pub(crate) enum Verb {
    Step(StepVerb),
    Begin,
    End,
    Undo,
    Redo,
    Pin,
    Drop,
    Ask,
    Build,
    Alias,
    Evict,
}

/// The command that a word names.
pub(crate) fn verb_named(text: &str) -> Option<Verb>
    ensures { result ≡ verb_named text.now }
{
    match step_named(text) {
        Some(step) => Some(Verb::Step(step)),
        None => other_named(text),
    }
}

fn step_named(text: &str) -> Option<StepVerb>
    ensures { result ≡ step_named text.now }
{
    match text {
        "make" => Some(StepVerb::Make),
        "override" => Some(StepVerb::Override),
        "set" => Some(StepVerb::Set),
        "clear" => Some(StepVerb::Clear),
        "delete" => Some(StepVerb::Delete),
        "defective" => Some(StepVerb::Defective),
        "connect" => Some(StepVerb::Connect),
        "disconnect" => Some(StepVerb::Disconnect),
        _ => None,
    }
}

fn other_named(text: &str) -> Option<Verb>
    ensures { result ≡ other_named text.now }
{
    match text {
        "begin" => Some(Verb::Begin),
        "end" => Some(Verb::End),
        "undo" => Some(Verb::Undo),
        "redo" => Some(Verb::Redo),
        _ => asking_named(text),
    }
}

fn asking_named(text: &str) -> Option<Verb>
    ensures { result ≡ asking_named text.now }
{
    match text {
        "pin" => Some(Verb::Pin),
        "drop" => Some(Verb::Drop),
        "ask" => Some(Verb::Ask),
        "build" => Some(Verb::Build),
        "alias" => Some(Verb::Alias),
        "evict" => Some(Verb::Evict),
        _ => None,
    }
}
