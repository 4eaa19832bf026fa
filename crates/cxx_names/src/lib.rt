//! What a program declares, and what its names mean.
#![tactic(auto)]

mod declarations;
mod lineage;
mod look_up;
mod table;
mod types;

pub use declarations::{
    ClassInfo, Declared, GlobalInfo, MemberInfo, Signature, default_access, is_text,
};
pub use table::Table;
pub use types::{Thing, ValueType, Variable};
