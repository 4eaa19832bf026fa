//! What a string literal stands for.

ghost use Rattle.std.specs.Prelude.{◌≡◌, IfOk};
ghost use Rattle.cxx_lex.specs.Strings as strings;

use agxx_base::{Memory, Text};
use std::alloc::Global;

fn escape_value(b: u8) -> u8
    ensures { result ≡ strings.escape_value b }
{
    match b {
        b'n' => b'\n',
        b't' => b'\t',
        _ => b,
    }
}

/// The bytes that a string literal stands for, given with its quotes. A text that isn't one counts up to its second
/// quote or to its end, each backslash with the byte behind it as an escape.
pub fn string_bytes(alloc: Global, literal: &[u8]) -> Result<Text, Memory>
    ensures { IfOk result (λ text. text ≡ strings.string_value literal.now) }
{
    let mut bytes = Vec::new(alloc);
    let mut n = 1;
    while n < literal.len() && literal[n] != b'"' {
        if literal[n] == b'\\' {
            if n + 1 < literal.len() {
                bytes.push(escape_value(literal[n + 1]))?;
            }
            n += 2;
        } else {
            bytes.push(literal[n])?;
            n += 1;
        }
    }
    Ok(Text::from_vec(bytes))
}
