//! The fixed words and signs of the language.

use crate::NumKind;

/// A keyword: a word that is never a name.
#[derive(Clone, Copy, Debug, PartialEq, Eq)]
pub enum Keyword {
    Class,
    Struct,
    Public,
    Private,
    Protected,
    Virtual,
    Void,
    Int,
    Unsigned,
    True,
    False,
    Nullptr,
    This,
    New,
    Delete,
    Return,
    If,
    Else,
    While,
    For,
    Aspect,
    Advice,
    Pointcut,
    Slice,
    Tjp,
    /// The name of a number type, `bool` among them; `int` and `unsigned` are keywords of their own.
    Number(NumKind),
    /// A keyword of C++20 that stands nowhere in the language's grammar, an alternative token among them.
    Reserved,
}

/// A sign of the language. Each one is named after its characters.
#[derive(Clone, Copy, Debug, PartialEq, Eq)]
pub enum Sign {
    /// `{`
    OpenBrace,
    /// `}`
    CloseBrace,
    /// `(`
    OpenParen,
    /// `)`
    CloseParen,
    /// `;`
    Semicolon,
    /// `,`
    Comma,
    /// `:`
    Colon,
    /// `::`
    ColonColon,
    /// `.`
    Dot,
    /// `->`
    Arrow,
    /// `...`
    Ellipsis,
    /// `+`
    Plus,
    /// `-`
    Minus,
    /// `*`
    Star,
    /// `/`
    Slash,
    /// `%`
    Percent,
    /// `&`
    And,
    /// `|`
    Or,
    /// `^`
    Caret,
    /// `~`
    Tilde,
    /// `!`
    Not,
    /// `<`
    Less,
    /// `>`
    Greater,
    /// `<=`
    LessEqual,
    /// `>=`
    GreaterEqual,
    /// `==`
    EqualEqual,
    /// `!=`
    NotEqual,
    /// `&&`
    AndAnd,
    /// `||`
    OrOr,
    /// `<<`
    ShiftLeft,
    /// `>>`
    ShiftRight,
    /// `=`
    Assign,
    /// `+=`
    PlusAssign,
    /// `-=`
    MinusAssign,
    /// `*=`
    StarAssign,
    /// `/=`
    SlashAssign,
    /// `%=`
    PercentAssign,
    /// `++`
    PlusPlus,
    /// `--`
    MinusMinus,
}

/// A header that `#include` may name.
#[derive(Clone, Copy, Debug, PartialEq, Eq)]
pub enum Header {
    Cstdint,
    Cstdlib,
    Iostream,
    Mutex,
    Thread,
}

/// A name that has a meaning at its place, and is a name like any other elsewhere.
#[derive(Clone, Copy, Debug, PartialEq, Eq)]
pub enum SpecialName {
    Std,
    Mutex,
    Thread,
    Cout,
    Endl,
    Abort,
    Before,
    After,
    Around,
    Order,
    Call,
    Execution,
    Construction,
    Destruction,
    Within,
    That,
    Target,
    Derived,
    Args,
    Proceed,
    Result,
}
