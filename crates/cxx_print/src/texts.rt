//! The texts of fixed words and signs.

ghost use Rattle.std.specs.Prelude.{◌≡◌};
ghost use Rattle.agxx_base.specs.Vocabulary as vocabulary;
ghost use Rattle.cxx_print.specs.Texts as texts;

use agxx_base::{Header, Keyword, NumKind, Sign, SpecialName};

pub(crate) fn kind_text(kind: NumKind) -> &'static [u8]
    ensures { result.now ≡ vocabulary.kind_text kind }
{
    match kind {
        NumKind::Bool => b"bool".as_slice(),
        NumKind::I8 => b"int8_t".as_slice(),
        NumKind::U8 => b"uint8_t".as_slice(),
        NumKind::I16 => b"int16_t".as_slice(),
        NumKind::U16 => b"uint16_t".as_slice(),
        NumKind::I32 => b"int32_t".as_slice(),
        NumKind::U32 => b"uint32_t".as_slice(),
        NumKind::I64 => b"int64_t".as_slice(),
        NumKind::U64 => b"uint64_t".as_slice(),
    }
}

pub(crate) fn keyword_text(keyword: Keyword) -> &'static [u8]
    ensures { result.now ≡ vocabulary.keyword_text keyword }
{
    match keyword {
        Keyword::Class => b"class".as_slice(),
        Keyword::Struct => b"struct".as_slice(),
        Keyword::Public => b"public".as_slice(),
        Keyword::Private => b"private".as_slice(),
        Keyword::Protected => b"protected".as_slice(),
        Keyword::Virtual => b"virtual".as_slice(),
        Keyword::Void => b"void".as_slice(),
        Keyword::Int => b"int".as_slice(),
        Keyword::Unsigned => b"unsigned".as_slice(),
        Keyword::True => b"true".as_slice(),
        Keyword::False => b"false".as_slice(),
        Keyword::Nullptr => b"nullptr".as_slice(),
        Keyword::This => b"this".as_slice(),
        Keyword::New => b"new".as_slice(),
        Keyword::Delete => b"delete".as_slice(),
        Keyword::Return => b"return".as_slice(),
        Keyword::If => b"if".as_slice(),
        Keyword::Else => b"else".as_slice(),
        Keyword::While => b"while".as_slice(),
        Keyword::For => b"for".as_slice(),
        Keyword::Aspect => b"aspect".as_slice(),
        Keyword::Advice => b"advice".as_slice(),
        Keyword::Pointcut => b"pointcut".as_slice(),
        Keyword::Slice => b"slice".as_slice(),
        Keyword::Tjp => b"tjp".as_slice(),
        Keyword::Number(kind) => kind_text(kind),
        Keyword::Reserved => b"".as_slice(),
    }
}

pub(crate) fn sign_text(sign: Sign) -> &'static [u8]
    ensures { result.now ≡ vocabulary.sign_text sign }
{
    match sign {
        Sign::OpenBrace => b"{".as_slice(),
        Sign::CloseBrace => b"}".as_slice(),
        Sign::OpenParen => b"(".as_slice(),
        Sign::CloseParen => b")".as_slice(),
        Sign::Semicolon => b";".as_slice(),
        Sign::Comma => b",".as_slice(),
        Sign::Colon => b":".as_slice(),
        Sign::ColonColon => b"::".as_slice(),
        Sign::Dot => b".".as_slice(),
        Sign::Arrow => b"->".as_slice(),
        Sign::Ellipsis => b"...".as_slice(),
        Sign::Plus => b"+".as_slice(),
        Sign::Minus => b"-".as_slice(),
        Sign::Star => b"*".as_slice(),
        Sign::Slash => b"/".as_slice(),
        Sign::Percent => b"%".as_slice(),
        Sign::And => b"&".as_slice(),
        Sign::Or => b"|".as_slice(),
        Sign::Caret => b"^".as_slice(),
        Sign::Tilde => b"~".as_slice(),
        Sign::Not => b"!".as_slice(),
        Sign::Less => b"<".as_slice(),
        Sign::Greater => b">".as_slice(),
        Sign::LessEqual => b"<=".as_slice(),
        Sign::GreaterEqual => b">=".as_slice(),
        Sign::EqualEqual => b"==".as_slice(),
        Sign::NotEqual => b"!=".as_slice(),
        Sign::AndAnd => b"&&".as_slice(),
        Sign::OrOr => b"||".as_slice(),
        Sign::ShiftLeft => b"<<".as_slice(),
        Sign::ShiftRight => b">>".as_slice(),
        Sign::Assign => b"=".as_slice(),
        Sign::PlusAssign => b"+=".as_slice(),
        Sign::MinusAssign => b"-=".as_slice(),
        Sign::StarAssign => b"*=".as_slice(),
        Sign::SlashAssign => b"/=".as_slice(),
        Sign::PercentAssign => b"%=".as_slice(),
        Sign::PlusPlus => b"++".as_slice(),
        Sign::MinusMinus => b"--".as_slice(),
    }
}

pub(crate) fn header_text(header: Header) -> &'static [u8]
    ensures { result.now ≡ texts.include_text header }
{
    match header {
        Header::Cstdint => b"#include <cstdint>".as_slice(),
        Header::Cstdlib => b"#include <cstdlib>".as_slice(),
        Header::Iostream => b"#include <iostream>".as_slice(),
        Header::Mutex => b"#include <mutex>".as_slice(),
        Header::Thread => b"#include <thread>".as_slice(),
    }
}

pub(crate) fn special_text(name: SpecialName) -> &'static [u8]
    ensures { result.now ≡ vocabulary.special_text name }
{
    match name {
        SpecialName::Std => b"std".as_slice(),
        SpecialName::Mutex => b"mutex".as_slice(),
        SpecialName::Thread => b"thread".as_slice(),
        SpecialName::Cout => b"cout".as_slice(),
        SpecialName::Endl => b"endl".as_slice(),
        SpecialName::Abort => b"abort".as_slice(),
        SpecialName::Before => b"before".as_slice(),
        SpecialName::After => b"after".as_slice(),
        SpecialName::Around => b"around".as_slice(),
        SpecialName::Order => b"order".as_slice(),
        SpecialName::Call => b"call".as_slice(),
        SpecialName::Execution => b"execution".as_slice(),
        SpecialName::Construction => b"construction".as_slice(),
        SpecialName::Destruction => b"destruction".as_slice(),
        SpecialName::Within => b"within".as_slice(),
        SpecialName::That => b"that".as_slice(),
        SpecialName::Target => b"target".as_slice(),
        SpecialName::Derived => b"derived".as_slice(),
        SpecialName::Args => b"args".as_slice(),
        SpecialName::Proceed => b"proceed".as_slice(),
        SpecialName::Result => b"result".as_slice(),
    }
}

pub(crate) fn suffix(kind: NumKind) -> &'static [u8]
    ensures { result.now ≡ texts.suffix kind }
{
    match kind {
        NumKind::U32 => b"u".as_slice(),
        NumKind::I64 => b"ll".as_slice(),
        NumKind::U64 => b"ull".as_slice(),
        NumKind::Bool | NumKind::I8 | NumKind::U8 | NumKind::I16 | NumKind::U16 | NumKind::I32 =>
            b"".as_slice(),
    }
}
