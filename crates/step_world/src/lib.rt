//! What the threads of a machine share: objects behind the trait `Heap`, global variables, who holds which mutex, and
//! what was printed. A turn of a thread reads it, and changes it by one `Change` at most.
#![tactic(auto)]

mod change;
mod entries;
mod heap;
mod object;
mod objects;
mod word_store;
mod world;

pub use change::{Change, Lock};
pub use entries::Entries;
pub use heap::{Heap, HeapError};
pub use objects::Objects;
pub use word_store::WordStore;
pub use world::World;
