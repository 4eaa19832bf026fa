//! Keywords, in tables by their length.

ghost use Rattle.std.specs.Prelude.{◌≡◌};
ghost use Rattle.cxx_lex.specs.Words.{keyword_of, entry_of};
ghost use Rattle.cxx_lex.specs.KeywordScan.{keyword_among, entries_of};

use agxx_base::{Keyword, NumKind};

/// What a table has for a word.
fn among(word: &[u8], entries: &[(&[u8], Keyword)]) -> Option<Keyword>
    ensures { result ≡ entry_of (entries_of entries.now) word.now }
{
    for (text, keyword) in entries {
        if word == *text {
            return Some(*keyword);
        }
    }
    None
}

fn of_two(word: &[u8]) -> Option<Keyword>
    ensures { result ≡ keyword_among 2 word.now }
{
    among(
        word,
        &[
            (b"if", Keyword::If),
            (b"do", Keyword::Reserved),
            (b"or", Keyword::Reserved),
        ],
    )
}

fn of_three(word: &[u8]) -> Option<Keyword>
    ensures { result ≡ keyword_among 3 word.now }
{
    among(
        word,
        &[
            (b"int", Keyword::Int),
            (b"new", Keyword::New),
            (b"for", Keyword::For),
            (b"tjp", Keyword::Tjp),
            (b"asm", Keyword::Reserved),
            (b"try", Keyword::Reserved),
            (b"and", Keyword::Reserved),
            (b"not", Keyword::Reserved),
            (b"xor", Keyword::Reserved),
        ],
    )
}

fn of_four(word: &[u8]) -> Option<Keyword>
    ensures { result ≡ keyword_among 4 word.now }
{
    among(
        word,
        &[
            (b"void", Keyword::Void),
            (b"true", Keyword::True),
            (b"this", Keyword::This),
            (b"else", Keyword::Else),
            (b"bool", Keyword::Number(NumKind::Bool)),
            (b"auto", Keyword::Reserved),
            (b"case", Keyword::Reserved),
            (b"char", Keyword::Reserved),
            (b"enum", Keyword::Reserved),
            (b"goto", Keyword::Reserved),
            (b"long", Keyword::Reserved),
        ],
    )
}

fn of_five(word: &[u8]) -> Option<Keyword>
    ensures { result ≡ keyword_among 5 word.now }
{
    among(
        word,
        &[
            (b"class", Keyword::Class),
            (b"false", Keyword::False),
            (b"while", Keyword::While),
            (b"slice", Keyword::Slice),
            (b"break", Keyword::Reserved),
            (b"catch", Keyword::Reserved),
            (b"const", Keyword::Reserved),
            (b"float", Keyword::Reserved),
            (b"short", Keyword::Reserved),
            (b"throw", Keyword::Reserved),
            (b"union", Keyword::Reserved),
            (b"using", Keyword::Reserved),
            (b"bitor", Keyword::Reserved),
            (b"compl", Keyword::Reserved),
            (b"or_eq", Keyword::Reserved),
        ],
    )
}

fn of_six(word: &[u8]) -> Option<Keyword>
    ensures { result ≡ keyword_among 6 word.now }
{
    among(
        word,
        &[
            (b"struct", Keyword::Struct),
            (b"public", Keyword::Public),
            (b"delete", Keyword::Delete),
            (b"return", Keyword::Return),
            (b"aspect", Keyword::Aspect),
            (b"advice", Keyword::Advice),
            (b"int8_t", Keyword::Number(NumKind::I8)),
            (b"double", Keyword::Reserved),
            (b"export", Keyword::Reserved),
            (b"extern", Keyword::Reserved),
            (b"friend", Keyword::Reserved),
            (b"inline", Keyword::Reserved),
            (b"signed", Keyword::Reserved),
            (b"sizeof", Keyword::Reserved),
            (b"static", Keyword::Reserved),
            (b"switch", Keyword::Reserved),
            (b"typeid", Keyword::Reserved),
            (b"and_eq", Keyword::Reserved),
            (b"bitand", Keyword::Reserved),
            (b"not_eq", Keyword::Reserved),
            (b"xor_eq", Keyword::Reserved),
        ],
    )
}

fn of_seven(word: &[u8]) -> Option<Keyword>
    ensures { result ≡ keyword_among 7 word.now }
{
    among(
        word,
        &[
            (b"private", Keyword::Private),
            (b"virtual", Keyword::Virtual),
            (b"nullptr", Keyword::Nullptr),
            (b"uint8_t", Keyword::Number(NumKind::U8)),
            (b"int16_t", Keyword::Number(NumKind::I16)),
            (b"int32_t", Keyword::Number(NumKind::I32)),
            (b"int64_t", Keyword::Number(NumKind::I64)),
            (b"alignas", Keyword::Reserved),
            (b"alignof", Keyword::Reserved),
            (b"char8_t", Keyword::Reserved),
            (b"concept", Keyword::Reserved),
            (b"default", Keyword::Reserved),
            (b"mutable", Keyword::Reserved),
            (b"typedef", Keyword::Reserved),
            (b"wchar_t", Keyword::Reserved),
        ],
    )
}

fn of_eight(word: &[u8]) -> Option<Keyword>
    ensures { result ≡ keyword_among 8 word.now }
{
    among(
        word,
        &[
            (b"unsigned", Keyword::Unsigned),
            (b"pointcut", Keyword::Pointcut),
            (b"uint16_t", Keyword::Number(NumKind::U16)),
            (b"uint32_t", Keyword::Number(NumKind::U32)),
            (b"uint64_t", Keyword::Number(NumKind::U64)),
            (b"char16_t", Keyword::Reserved),
            (b"char32_t", Keyword::Reserved),
            (b"continue", Keyword::Reserved),
            (b"co_await", Keyword::Reserved),
            (b"co_yield", Keyword::Reserved),
            (b"decltype", Keyword::Reserved),
            (b"explicit", Keyword::Reserved),
            (b"noexcept", Keyword::Reserved),
            (b"operator", Keyword::Reserved),
            (b"register", Keyword::Reserved),
            (b"requires", Keyword::Reserved),
            (b"template", Keyword::Reserved),
            (b"typename", Keyword::Reserved),
            (b"volatile", Keyword::Reserved),
        ],
    )
}

fn of_nine(word: &[u8]) -> Option<Keyword>
    ensures { result ≡ keyword_among 9 word.now }
{
    among(
        word,
        &[
            (b"protected", Keyword::Protected),
            (b"consteval", Keyword::Reserved),
            (b"constexpr", Keyword::Reserved),
            (b"constinit", Keyword::Reserved),
            (b"co_return", Keyword::Reserved),
            (b"namespace", Keyword::Reserved),
        ],
    )
}

fn of_ten(word: &[u8]) -> Option<Keyword>
    ensures { result ≡ keyword_among 10 word.now }
{
    among(word, &[(b"const_cast", Keyword::Reserved)])
}

fn of_eleven(word: &[u8]) -> Option<Keyword>
    ensures { result ≡ keyword_among 11 word.now }
{
    among(word, &[(b"static_cast", Keyword::Reserved)])
}

fn of_twelve(word: &[u8]) -> Option<Keyword>
    ensures { result ≡ keyword_among 12 word.now }
{
    among(
        word,
        &[
            (b"dynamic_cast", Keyword::Reserved),
            (b"thread_local", Keyword::Reserved),
        ],
    )
}

fn of_thirteen(word: &[u8]) -> Option<Keyword>
    ensures { result ≡ keyword_among 13 word.now }
{
    among(word, &[(b"static_assert", Keyword::Reserved)])
}

fn of_sixteen(word: &[u8]) -> Option<Keyword>
    ensures { result ≡ keyword_among 16 word.now }
{
    among(word, &[(b"reinterpret_cast", Keyword::Reserved)])
}

/// The keyword that a word is.
pub fn keyword(word: &[u8]) -> Option<Keyword>
    ensures { result ≡ keyword_of word.now }
{
    match word.len() {
        2 => of_two(word),
        3 => of_three(word),
        4 => of_four(word),
        5 => of_five(word),
        6 => of_six(word),
        7 => of_seven(word),
        8 => of_eight(word),
        9 => of_nine(word),
        10 => of_ten(word),
        11 => of_eleven(word),
        12 => of_twelve(word),
        13 => of_thirteen(word),
        16 => of_sixteen(word),
        _ => None,
    }
}
