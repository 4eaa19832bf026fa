//! Laws on definitions alone. Each function does nothing: it carries its law.

ghost use Rattle.cxx_rules.specs.Laws.{EachNodeOnce};
ghost use Rattle.cxx_rules.specs.Rules.{EachRuleByItself};

/// Says that the violations of each rule are exactly those places that the rule, stated by itself, names.
pub fn each_rule_by_itself()
    ensures { EachRuleByItself }
{}

/// Says that of each node of a program just one thing is known.
pub fn each_node_once()
    ensures { EachNodeOnce }
{}
