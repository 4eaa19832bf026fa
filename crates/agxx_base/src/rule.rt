//! The rules by which an input is refused.

ghost use Rattle.std.specs.Prelude.{◌≡◌};
ghost use Rattle.agxx_base.specs.Refusals.{rank};
ghost use Rattle.agxx_base.specs.Rules.{code_of, message_of};

/// A rule that an input may violate. The rules stand in the order in which they are compared. A rule's letter tells
/// its subject: `S` sizes of files, `F` plans, `L` tokens, `G` grammar, `N` names and types, `A` aspects,
/// `P` protection, `W` weaving; `U` is for forms that are not built yet.
#[derive(Clone, Copy, Debug, PartialEq, Eq)]
pub enum Rule {
    /// File too large.
    S1,
    /// Unknown or surplus word.
    F1,
    /// Number missing or malformed.
    F2,
    /// Number too large.
    F3,
    /// Line given twice.
    F4,
    /// No limit.
    F5,
    /// Unexpected byte.
    L1,
    /// Not closed.
    L2,
    /// Number too large.
    L3,
    /// Reserved name.
    L4,
    /// Name too long.
    L5,
    /// Unexpected token.
    G1,
    /// Too deep.
    G2,
    /// Malformed match text.
    A3,
    /// Unknown name.
    N1,
    /// Declared twice.
    N2,
    /// Types disagree.
    N3,
    /// Wrong number of arguments.
    N4,
    /// Base not declared before.
    N5,
    /// Not accessible.
    N6,
    /// Address of anything but a global object.
    N7,
    /// Not allowed here.
    N8,
    /// No function int main().
    N9,
    /// Too many.
    N10,
    /// Unknown pointcut.
    A1,
    /// Pointcut names itself.
    A2,
    /// Proceed or result not allowed here.
    A5,
    /// Args disagree.
    A7,
    /// Name already there.
    A8,
    /// Pure pointcut not defined.
    A9,
    /// Cyclic order.
    A4,
    /// Around at construction or destruction.
    A6,
    /// No such result.
    A10,
    /// Member of a protected part not reached through this.
    P1,
    /// Bool member in a protected class.
    P2,
    /// Too many members in a part.
    P3,
    /// Class guarded twice.
    P4,
    /// Delete this in a protected class.
    P5,
    /// Too many levels.
    W2,
    /// Woven text too large.
    W1,
    /// Form not built.
    U1,
}

impl Rule {
    /// The rule's place among all, by which rules at one place are compared.
    pub fn rank(self) -> u32
        ensures { result ≡ rank self }
    {
        match self {
            Rule::S1 => 1,
            Rule::F1 => 2,
            Rule::F2 => 3,
            Rule::F3 => 4,
            Rule::F4 => 5,
            Rule::F5 => 6,
            Rule::L1 => 7,
            Rule::L2 => 8,
            Rule::L3 => 9,
            Rule::L4 => 10,
            Rule::L5 => 11,
            Rule::G1 => 12,
            Rule::G2 => 13,
            Rule::A3 => 14,
            Rule::N1 => 15,
            Rule::N2 => 16,
            Rule::N3 => 17,
            Rule::N4 => 18,
            Rule::N5 => 19,
            Rule::N6 => 20,
            Rule::N7 => 21,
            Rule::N8 => 22,
            Rule::N9 => 23,
            Rule::N10 => 24,
            Rule::A1 => 25,
            Rule::A2 => 26,
            Rule::A5 => 27,
            Rule::A7 => 28,
            Rule::A8 => 29,
            Rule::A9 => 30,
            Rule::A4 => 31,
            Rule::A6 => 32,
            Rule::A10 => 33,
            Rule::P1 => 34,
            Rule::P2 => 35,
            Rule::P3 => 36,
            Rule::P4 => 37,
            Rule::P5 => 38,
            Rule::W2 => 39,
            Rule::W1 => 40,
            Rule::U1 => 41,
        }
    }

    /// The rule's name, as diagnostics print it.
    pub fn code(self) -> &'static str
        ensures { result.now ≡ code_of self }
    {
        match self {
            Rule::S1 => "S1",
            Rule::F1 => "F1",
            Rule::F2 => "F2",
            Rule::F3 => "F3",
            Rule::F4 => "F4",
            Rule::F5 => "F5",
            Rule::L1 => "L1",
            Rule::L2 => "L2",
            Rule::L3 => "L3",
            Rule::L4 => "L4",
            Rule::L5 => "L5",
            Rule::G1 => "G1",
            Rule::G2 => "G2",
            Rule::A3 => "A3",
            Rule::N1 => "N1",
            Rule::N2 => "N2",
            Rule::N3 => "N3",
            Rule::N4 => "N4",
            Rule::N5 => "N5",
            Rule::N6 => "N6",
            Rule::N7 => "N7",
            Rule::N8 => "N8",
            Rule::N9 => "N9",
            Rule::N10 => "N10",
            Rule::A1 => "A1",
            Rule::A2 => "A2",
            Rule::A5 => "A5",
            Rule::A7 => "A7",
            Rule::A8 => "A8",
            Rule::A9 => "A9",
            Rule::A4 => "A4",
            Rule::A6 => "A6",
            Rule::A10 => "A10",
            Rule::P1 => "P1",
            Rule::P2 => "P2",
            Rule::P3 => "P3",
            Rule::P4 => "P4",
            Rule::P5 => "P5",
            Rule::W2 => "W2",
            Rule::W1 => "W1",
            Rule::U1 => "U1",
        }
    }

    /// What is wrong, in a few words.
    pub fn message(self) -> &'static str
        ensures { result.now ≡ message_of self }
    {
        match self {
            Rule::S1 => "file too large",
            Rule::F1 => "unknown or surplus word",
            Rule::F2 => "number missing or malformed",
            Rule::F3 => "number too large",
            Rule::F4 => "line given twice",
            Rule::F5 => "no limit",
            Rule::L1 => "unexpected byte",
            Rule::L2 => "not closed",
            Rule::L3 => "number too large",
            Rule::L4 => "reserved name",
            Rule::L5 => "name too long",
            Rule::G1 => "unexpected token",
            Rule::G2 => "too deep",
            Rule::A3 => "malformed match text",
            Rule::N1 => "unknown name",
            Rule::N2 => "declared twice",
            Rule::N3 => "types disagree",
            Rule::N4 => "wrong number of arguments",
            Rule::N5 => "base not declared before",
            Rule::N6 => "not accessible",
            Rule::N7 => "address of anything but a global object",
            Rule::N8 => "not allowed here",
            Rule::N9 => "no function int main()",
            Rule::N10 => "too many",
            Rule::A1 => "unknown pointcut",
            Rule::A2 => "pointcut names itself",
            Rule::A5 => "proceed or result not allowed here",
            Rule::A7 => "args disagree",
            Rule::A8 => "name already there",
            Rule::A9 => "pure pointcut not defined",
            Rule::A4 => "cyclic order",
            Rule::A6 => "around at construction or destruction",
            Rule::A10 => "no such result",
            Rule::P1 => "member of a protected part not reached through this",
            Rule::P2 => "bool member in a protected class",
            Rule::P3 => "too many members in a part",
            Rule::P4 => "class guarded twice",
            Rule::P5 => "delete this in a protected class",
            Rule::W2 => "too many levels",
            Rule::W1 => "woven text too large",
            Rule::U1 => "form not built",
        }
    }
}
