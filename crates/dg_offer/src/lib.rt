//! What an evaluation offers to a cache. An [`Offer`] has the answers that one evaluation found at the
//! revision of its ticket, and the answers of others that it used. That it is right is known to whoever gets
//! one: `specs/Offers.antt` says what that means.
#![tactic(auto)]

mod offer;
#[cfg(test)]
mod uses;

pub use offer::Offer;
