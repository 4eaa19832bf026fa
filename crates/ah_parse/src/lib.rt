//! Aspect files that tell which classes are guarded, and how: each aspect has the built-in aspect `GOP_Copies` or
//! `GOP_Hamming` as its base, and its pointcut `guarded` names the classes. Callers cite `specs/GuardFiles.antt`: which
//! texts are guard files, which names are taken then, and the guards of aspects; `specs/Aspects.antt` has the words of
//! an aspect.
#![tactic(auto)]

mod aspect;
mod fixed;
mod laws;
mod names;
mod read;
mod reader;
mod words;

pub use aspect::GuardAspect;
pub use laws::{guard_files_are_decided, guard_files_are_read_in_one_way};
pub use names::{guards_of, names_in};
pub use read::read_guards;
