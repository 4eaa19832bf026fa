//! What a watch on a run looks up: the words of parts, who is inside a part and who runs; and what it keeps: the set of
//! hit parts, lines that wait by what they wait for, and lines that a moment goes through. What is found is defined in
//! `fault_model`, and what is kept in `fault_lines`. Callers cite `PartWords`, `Tops` and `MarkSets`.
#![tactic(auto)]

mod classes;
mod due;
mod inside;
mod marks;
mod part_words;
mod waiting;

pub use due::Due;
pub use inside::{Top, are_inside, depth_of, top_of};
pub use marks::Marks;
pub use part_words::{PartWord, part_word_at};
pub use waiting::Waiting;
