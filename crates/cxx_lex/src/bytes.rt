//! Classes of bytes, and fronts of a text that are of one class.

ghost use Rattle.std.specs.Prelude.{◌≡◌, ◌≤◌, length};
ghost use Rattle.cxx_lex.specs.Bytes as bytes;
ghost use Rattle.cxx_lex.specs.Runs as runs;
ghost use Rattle.cxx_lex.specs.Runs.{run};

fn is_within(low: u8, high: u8, b: u8) -> bool
    ensures { result ≡ bytes.is_within low high b }
{
    low <= b && b <= high
}

fn is_space(b: u8) -> bool
    ensures { result ≡ bytes.is_space b }
{
    b == b' ' || b == b'\t' || b == 12 || b == b'\r'
}

pub fn is_blank(b: u8) -> bool
    ensures { result ≡ bytes.is_blank b }
{
    is_space(b) || b == b'\n'
}

pub fn is_letter(b: u8) -> bool
    ensures { result ≡ bytes.is_letter b }
{
    is_within(b'a', b'z', b) || is_within(b'A', b'Z', b) || b == b'_'
}

pub fn is_digit(b: u8) -> bool
    ensures { result ≡ bytes.is_digit b }
{
    is_within(b'0', b'9', b)
}

pub fn is_part(b: u8) -> bool
    ensures { result ≡ bytes.is_part b }
{
    is_letter(b) || is_digit(b)
}

pub fn is_hexadecimal(b: u8) -> bool
    ensures { result ≡ bytes.is_hexadecimal b }
{
    is_digit(b) || is_within(b'a', b'f', b) || is_within(b'A', b'F', b)
}

pub fn is_plain(b: u8) -> bool
    ensures { result ≡ bytes.is_plain b }
{
    is_within(b' ', b'~', b) && b != b'"' && b != b'\\'
}

pub fn is_escape(b: u8) -> bool
    ensures { result ≡ bytes.is_escape b }
{
    b == b'n' || b == b't' || b == b'\\' || b == b'"'
}

pub fn begins_with(b: u8, text: &[u8]) -> bool
    ensures { result ≡ bytes.begins_with b text.now }
{
    match text {
        [] => false,
        [c, ..] => *c == b,
    }
}

pub fn has_pair(a: u8, b: u8, text: &[u8]) -> bool
    ensures { result ≡ bytes.has_pair a b text.now }
{
    for n in 0..text.len() {
        if text[n] == a && begins_with(b, &text[n + 1..]) {
            return true;
        }
    }
    false
}

/// A class of bytes that fronts of a text are made of.
#[derive(Clone, Copy, Debug, PartialEq, Eq)]
pub enum Class {
    /// A blank that doesn't end its line.
    Space,
    /// A byte of a name.
    Part,
    Digit,
    Hexadecimal,
    /// Any byte but a newline.
    InLine,
}

fn has(class: Class, b: u8) -> bool
    ensures { result ≡ runs.has class b }
{
    match class {
        Class::Space => is_space(b),
        Class::Part => is_part(b),
        Class::Digit => is_digit(b),
        Class::Hexadecimal => is_hexadecimal(b),
        Class::InLine => b != b'\n',
    }
}

/// How many bytes of the class the text begins with.
pub fn run_len(class: Class, text: &[u8]) -> usize
    ensures value { result ≡ run (runs.has class) text.now }
    ensures within { result ≤ length text.now }
{
    let mut n = 0;
    while n < text.len() && has(class, text[n]) {
        n += 1;
    }
    n
}
