//! The rules on names and types in protected programs: where a program keeps them and the rules on guards, its
//! protected program keeps them as a woven one. The crate has definitions and laws alone.
//!
//! Read `specs/WovenRules`.
#![tactic(auto)]

mod laws;

pub use laws::{
    addresses_are_of_global_objects, all_is_accessible, all_is_allowed_here,
    each_base_is_declared_before, each_rule_is_kept, main_stays, no_types_disagree,
    no_unknown_name_arises, no_wrong_number_of_arguments_arises, not_too_many_arise,
    nothing_is_declared_twice, protected_programs_are_accepted,
};
