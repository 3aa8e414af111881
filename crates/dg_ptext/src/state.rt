//! Where the reader stands between two tokens.
ghost use Rattle.std.specs.Prelude.{◌≡◌, OnOk};
ghost use Rattle.dg_base.specs.Refusal.{Gives};
ghost use Rattle.dg_ptext.specs.Reading.{before_field, behind_field, behind_name, behind_colon, behind_strings, closed, innermost, opened, valued, with_field, step, end, start};

use crate::refusal::TextCode;
use crate::token::{Text, Token};
use crate::tree::{Field, Tree, Value};
use dg_base::{Refusal, Str};
use dg_text::is_name;
use sqlite_items::Items;
use std::alloc::{AllocError, Global};

// How many messages may be open in one another.
const DEEPEST: usize = 64;

/// An open message: its field's name and line, the line of its brace, and the fields that stand before it.
#[derive(Drop)]
pub(crate) struct Opened {
    pub(crate) name: Str,
    pub(crate) line: u32,
    pub(crate) brace: u32,
    pub(crate) fields: Tree,
}

/// What stands before the next token: nothing of a field, a whole field, its name, its name and a colon, or strings.
#[derive(Drop)]
pub(crate) enum Phase {
    Before,
    Behind,
    Named { name: Str, line: u32 },
    Colon { name: Str, line: u32, at: u32 },
    Strings { name: Str, line: u32, text: Text },
}

/// The messages that are open, the outermost first, the fields of the innermost so far, and what stands in it before
/// the next token.
#[derive(Drop)]
pub(crate) struct State {
    pub(crate) around: Items<Opened>,
    pub(crate) fields: Tree,
    pub(crate) phase: Phase,
}

impl State {
    /// Before the first token of a text.
    pub(crate) fn start(alloc: Global) -> State
        ensures { result ≡ start }
    {
        State {
            around: Items::new(alloc),
            fields: Items::new(alloc),
            phase: Phase::Before,
        }
    }

    /// The state behind one more token, in constant time but for what a string adds.
    #[tactic(auto, unfolding(crate::specs::Reading::step))]
    pub(crate) fn step(
        self,
        alloc: Global,
        here: u32,
        token: Token,
    ) -> Result<State, Refusal<TextCode>>
        ensures { Gives (λ x. x) result (step self here token) }
    {
        let State {
            around,
            fields,
            phase,
        } = self;
        match phase {
            Phase::Before => before_field(around, fields, here, token),
            Phase::Behind => behind_field(around, fields, here, token),
            Phase::Named { name, line } => {
                behind_name(alloc, Front::new(around, fields, name, line), here, token)
            }
            Phase::Colon { name, line, at: _ } => {
                behind_colon(alloc, Front::new(around, fields, name, line), here, token)
            }
            Phase::Strings { name, line, text } => {
                behind_strings(Front::new(around, fields, name, line), text, here, token)
            }
        }
    }

    /// What the text says that ends here.
    #[tactic(auto, unfolding(crate::specs::Reading::end))]
    pub(crate) fn end(self) -> Result<Tree, Refusal<TextCode>>
        ensures { Gives (λ x. x) result (end self) }
    {
        let State {
            mut around,
            mut fields,
            phase,
        } = self;
        if let Some(inner) = around.pop() {
            return Err(Refusal::Because(TextCode::Unclosed { line: inner.brace }));
        }
        match phase {
            Phase::Before => Ok(fields),
            Phase::Behind => Ok(fields),
            Phase::Named { name: _, line } => Err(Refusal::Because(TextCode::Token { line })),
            Phase::Colon {
                name: _,
                line: _,
                at,
            } => Err(Refusal::Because(TextCode::Token { line: at })),
            Phase::Strings { name, line, text } => {
                push(&mut fields, name, line, Value::Quoted(text.into_str()))?;
                Ok(fields)
            }
        }
    }
}

// A field whose name was read: the messages round it, the fields before it, its name and the name's line.
#[derive(Drop)]
struct Front {
    around: Items<Opened>,
    fields: Tree,
    name: Str,
    line: u32,
}

impl Front {
    fn new(around: Items<Opened>, fields: Tree, name: Str, line: u32) -> Front
        ensures { result ≡ record { around = around; fields = fields; name = name; line = line } }
    {
        Front {
            around,
            fields,
            name,
            line,
        }
    }
}

fn push(fields: &mut Tree, name: Str, line: u32, value: Value) -> Result<(), AllocError>
    ensures { OnOk result (fields.new ≡ with_field fields.old name line value) }
{
    fields.push(Field { name, line, value })
}

fn before_field(
    around: Items<Opened>,
    fields: Tree,
    here: u32,
    token: Token,
) -> Result<State, Refusal<TextCode>>
    ensures { Gives (λ x. x) result (before_field around fields here token) }
{
    match token {
        Token::Close => close_message(around, fields, here),
        Token::Word(name) => {
            if !is_name(name.as_str()) {
                return Err(Refusal::Because(TextCode::Token { line: here }));
            }
            Ok(State {
                around,
                fields,
                phase: Phase::Named { name, line: here },
            })
        }
        _ => Err(Refusal::Because(TextCode::Token { line: here })),
    }
}

fn behind_field(
    around: Items<Opened>,
    fields: Tree,
    here: u32,
    token: Token,
) -> Result<State, Refusal<TextCode>>
    ensures { Gives (λ x. x) result (behind_field around fields here token) }
{
    match token {
        Token::Comma | Token::Semicolon => Ok(State {
            around,
            fields,
            phase: Phase::Before,
        }),
        token => before_field(around, fields, here, token),
    }
}

fn behind_name(
    alloc: Global,
    front: Front,
    here: u32,
    token: Token,
) -> Result<State, Refusal<TextCode>>
    ensures { Gives (λ x. x) result (behind_name front.around front.fields front.name front.line here token) }
{
    match token {
        Token::Colon => {
            let Front {
                around,
                fields,
                name,
                line,
            } = front;
            Ok(State {
                around,
                fields,
                phase: Phase::Colon {
                    name,
                    line,
                    at: here,
                },
            })
        }
        Token::Open => open_message(alloc, front, here),
        _ => Err(Refusal::Because(TextCode::Token { line: here })),
    }
}

fn behind_colon(
    alloc: Global,
    front: Front,
    here: u32,
    token: Token,
) -> Result<State, Refusal<TextCode>>
    ensures { Gives (λ x. x) result (behind_colon front.around front.fields front.name front.line here token) }
{
    match token {
        Token::Word(word) => with_value(front, Value::Bare(word)),
        Token::Text(text) => {
            let Front {
                around,
                fields,
                name,
                line,
            } = front;
            Ok(State {
                around,
                fields,
                phase: Phase::Strings { name, line, text },
            })
        }
        Token::Open => open_message(alloc, front, here),
        _ => Err(Refusal::Because(TextCode::Token { line: here })),
    }
}

fn behind_strings(
    front: Front,
    text: Text,
    here: u32,
    token: Token,
) -> Result<State, Refusal<TextCode>>
    ensures { Gives (λ x. x) result (behind_strings front.around front.fields front.name front.line text here token) }
{
    let Front {
        around,
        mut fields,
        name,
        line,
    } = front;
    match token {
        Token::Text(more) => {
            let mut text = text;
            text.join(&more)?;
            Ok(State {
                around,
                fields,
                phase: Phase::Strings { name, line, text },
            })
        }
        token => {
            push(&mut fields, name, line, Value::Quoted(text.into_str()))?;
            behind_field(around, fields, here, token)
        }
    }
}

// The state behind a value that isn't a message.
fn with_value(front: Front, value: Value) -> Result<State, Refusal<TextCode>>
    ensures { Gives (λ x. x) result (valued front.around front.fields front.name front.line value) }
{
    let Front {
        around,
        mut fields,
        name,
        line,
    } = front;
    push(&mut fields, name, line, value)?;
    Ok(State {
        around,
        fields,
        phase: Phase::Behind,
    })
}

fn open_message(alloc: Global, front: Front, here: u32) -> Result<State, Refusal<TextCode>>
    ensures { Gives (λ x. x) result (opened front.around front.fields front.name front.line here) }
{
    let Front {
        mut around,
        fields,
        name,
        line,
    } = front;
    if around.len() == DEEPEST {
        return Err(Refusal::Because(TextCode::Nesting { line: here }));
    }
    around.push(Opened {
        name,
        line,
        brace: here,
        fields,
    })?;
    Ok(State {
        around,
        fields: Items::new(alloc),
        phase: Phase::Before,
    })
}

fn close_message(around: Items<Opened>, fields: Tree, here: u32) -> Result<State, Refusal<TextCode>>
    ensures { Gives (λ x. x) result (closed (innermost around) fields here) }
{
    let mut around = around;
    let Some(inner) = around.pop() else {
        return Err(Refusal::Because(TextCode::Token { line: here }));
    };
    let Opened {
        name,
        line,
        brace: _,
        fields: mut outer,
    } = inner;
    push(&mut outer, name, line, Value::Message(fields))?;
    Ok(State {
        around,
        fields: outer,
        phase: Phase::Behind,
    })
}
