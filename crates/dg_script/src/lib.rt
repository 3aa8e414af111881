//! The script language: the bytes of a script, and the commands that they are.
//!
//! [`read_script`] is the one call. It answers a [`Script`], the commands in their order with the
//! numbers of their lines, or the first line that is none with the first [`ScriptCode`] that fits it.
//! Whether a name is bound or a label exists is not asked here: names, nodes and labels stay the words
//! that were read. [`reads_back`] says that a quoted text is read as that text.
//!
//! In reading order: `command` is what a script says, `words` reads the words of a line, `forms` and
//! `endpoints` what single words are, `verbs`, `steps` and `acts` which words are which command, `lines`
//! what a line is, `reader` takes one line after the other, and `reading` the whole script. `specs/` has
//! the language in the same order, production by production: `Words`, `Forms`, `Steps`, `Acts`, `Script`.
#![tactic(auto)]

mod acts;
mod command;
mod endpoints;
mod forms;
mod laws;
mod lines;
mod reader;
mod reading;
mod refusal;
mod steps;
#[cfg(test)]
mod tests;
mod verbs;
mod words;

pub use command::{
    Act, BadLine, BlockSteps, Command, EpWords, Script, ScriptCode, SetWords, StepWords,
};
pub use laws::{quoted_apart, reads_back};
pub use reading::read_script;
