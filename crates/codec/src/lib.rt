//! Codes: the words that are added to a guarded class's members, what they mean, and the statements that repair and
//! renew them. `Codec` is what weaving asks of a code, `Copies` the first one.
//!
//! Read `specs/Part`, `Codes`, `Copies`.
#![tactic(auto)]

mod codec;
mod copies;
mod names;
mod part;

pub use codec::Codec;
pub use copies::Copies;
pub use part::{Part, unsigned_type};
