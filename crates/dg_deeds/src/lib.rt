//! What a run does outside, in order: files that it writes and lines that it puts.
//!
//! The layer above makes one list of deeds, and [`do_all`] does them on its files and its sink. A run that
//! is done has done all of them; one that is cut off has done the first ones, and of the next one at most a part,
//! so the order of the list is kept between files and lines too. `specs/Deeds.antt` says what deeds make of a tree and of
//! bytes, and what is begun of them; `specs/Printed.antt` what a sink has got of a text.
//!
//! In reading order: `deed` is what is done and why it stops, `printing` puts pieces and lines, `doing` does the
//! deeds, and `law` says how the definitions go together over lists in two parts, and what they say of lines and of files. [`worked`] states
//! cases that the checker computes.
#![tactic(auto)]

mod deed;
mod doing;
pub mod law;
mod printing;
#[cfg(test)]
mod tests;
pub mod worked;

pub use deed::{Deed, Stop};
pub use doing::do_all;
pub use printing::{put_all, put_lines};
