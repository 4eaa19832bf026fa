//! Laws on definitions alone. Each function does nothing: it carries its law.

ghost use Rattle.cxx_rules.specs.Rules as rules;
ghost use Rattle.agxx_base.specs.declared.kind.Mode.TheVariants as mode;
ghost use Rattle.woven_rules.specs.WovenRules.{Keeps, KeepsEachRule, ProtectedIsAccepted};

/// No unknown name arises in a protected program.
pub fn no_unknown_name_arises()
    ensures { Keeps rules.unknown_name }
{}

/// Nothing is declared twice in a protected program.
pub fn nothing_is_declared_twice()
    ensures { Keeps rules.declared_twice }
{}

/// No types disagree in a protected program.
pub fn no_types_disagree()
    ensures { Keeps rules.types_disagree }
{}

/// No call of a protected program has a wrong number of arguments.
pub fn no_wrong_number_of_arguments_arises()
    ensures { Keeps rules.wrong_number_of_arguments }
{}

/// Each base in a protected program is declared before.
pub fn each_base_is_declared_before()
    ensures { Keeps rules.base_not_declared_before }
{}

/// All that a protected program uses is accessible there.
pub fn all_is_accessible()
    ensures { Keeps rules.not_accessible }
{}

/// Addresses in a protected program are those of global objects.
pub fn addresses_are_of_global_objects()
    ensures { Keeps rules.address_of_no_global_object }
{}

/// All that stands in a protected program is allowed where it stands.
pub fn all_is_allowed_here()
    ensures { Keeps rules.not_allowed_here }
{}

/// A protected program has its `main`.
pub fn main_stays()
    ensures { Keeps rules.no_main }
{}

/// There are not too many of anything in a protected program.
pub fn not_too_many_arise()
    ensures { Keeps (λ names q. rules.too_many names mode.Woven q) }
{}

/// A protected program keeps each rule on names and types.
pub fn each_rule_is_kept()
    ensures { KeepsEachRule }
{}

/// Protected programs are accepted as woven ones.
pub fn protected_programs_are_accepted()
    ensures { ProtectedIsAccepted }
{}
