//! Parts.

ghost use Rattle.std.specs.Prelude.{◌≡◌};
ghost use Rattle.codec.specs.Part as spec;

use agxx_base::{ListOf, NumKind};
use cxx_tree::{Member, Name, TypeName};

/// The members that a guarded class itself declares. It has 1 to 120 of them, all of number types.
#[derive(Drop)]
pub struct Part {
    /// The class's name. What is generated for the part has its place.
    pub class: Name,
    pub members: ListOf<Member>,
}

/// The unsigned kind of a kind's width.
fn unsigned_kind(kind: NumKind) -> NumKind
    ensures { result ≡ spec.unsigned_kind kind }
{
    match kind {
        NumKind::Bool | NumKind::I8 | NumKind::U8 => NumKind::U8,
        NumKind::I16 | NumKind::U16 => NumKind::U16,
        NumKind::I32 | NumKind::U32 => NumKind::U32,
        NumKind::I64 | NumKind::U64 => NumKind::U64,
    }
}

/// The unsigned kind of the width of a number type.
pub fn unsigned_type(type_name: TypeName) -> NumKind
    ensures { result ≡ spec.unsigned_type type_name }
{
    match type_name {
        TypeName::Num(kind) => unsigned_kind(kind),
        TypeName::Int | TypeName::Unsigned => NumKind::U32,
        TypeName::Void | TypeName::Pointer(_) | TypeName::Mutex => NumKind::U64,
    }
}
