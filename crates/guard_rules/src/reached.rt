//! The rule that members of guarded classes are reached by their bare names or by `this->` alone. Each function gives
//! the first of what is found and the violations in a part.

mod expr;
mod program;
mod stmt;
