//! What a part of a program is made with.

use agxx_base::{ClassId, Names};
use cxx_names::{Declared, ValueType};
use std::alloc::Global;
use std::marker::Model;

/// Makes core forms of what stands in a function of this class and with this result, if in any.
#[derive(Drop)]
pub(crate) struct Elaborator<'a> {
    pub(crate) alloc: Global,
    pub(crate) names: &'a Names,
    pub(crate) declared: &'a Declared,
    pub(crate) class: Option<ClassId>,
    pub(crate) result: Option<ValueType>,
}

impl<'a> Model for Elaborator<'a> {
    ghost use Rattle.cxx_core.specs.Meanings.{Within};

    ghost Value = { Within };

    ghost view = { λ e. record {
      names = e.names.now;
      declared = e.declared.now;
      class = e.class;
      result = e.result;
    } };
}
