//! Equality of trees but for places and numbers of nodes.

/// Whether two slices are as long as each other and agree item by item, as the body of a function.
macro_rules! all_same {
    ($left:expr, $right:expr, $same:ident) => {{
        let mut rest = $right;
        for first in $left {
            let [other, others @ ..] = rest else {
                return false;
            };
            if !$same(first, other) {
                return false;
            }
            rest = others;
        }
        match rest {
            [] => true,
            [_surplus, ..] => false,
        }
    }};
}

mod expr;
mod program;
mod stmt;

pub use program::same;
