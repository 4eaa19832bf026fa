//! Numbers.

ghost use Rattle.std.specs.Prelude.{◌≡◌, ◌≤◌, ◌<◌, ◌^◌, ◌+◌, ◌*◌, length, nat_lt, IfSome, IfNone};
ghost use Rattle.agxx_base.specs.declared.rule.Rule.TheVariants.{L3};
ghost use Rattle.cxx_lex.specs.Numbers as numbers;
ghost use Rattle.cxx_lex.specs.NumberScan as scan;

use crate::bytes::{Class, begins_with, is_hexadecimal, run_len};
use crate::tok::{Lexeme, TokKind};
use agxx_base::{NumKind, Rule};

#[derive(Clone, Copy, Debug, PartialEq, Eq)]
pub enum Base {
    Decimal,
    Hexadecimal,
}

#[derive(Clone, Copy, Debug, PartialEq, Eq)]
pub enum Suffix {
    /// No suffix.
    Plain,
    U,
    Ll,
    Ull,
}

fn is_prefixed(text: &[u8]) -> bool
    ensures { result ≡ scan.is_prefixed text.now }
{
    match text {
        [zero, x, digit, ..] => *zero == b'0'
            && (*x == b'x' || *x == b'X')
            && is_hexadecimal(*digit),
        _ => false,
    }
}

fn base_at(text: &[u8]) -> Base
    ensures { result ≡ scan.base_at text.now }
{
    if is_prefixed(text) {
        Base::Hexadecimal
    } else {
        Base::Decimal
    }
}

fn digits_len(text: &[u8]) -> usize
    ensures value { result ≡ scan.digits_len text.now }
    ensures within { result ≤ length text.now }
{
    if is_prefixed(text) {
        return 2 + run_len(Class::Hexadecimal, &text[2..]);
    }
    if begins_with(b'0', text) {
        return 1;
    }
    run_len(Class::Digit, text)
}

fn digit_value(b: u8) -> u64
    ensures { result ≡ numbers.digit_value b }
{
    let value = match b {
        b'0'..=b'9' => b - b'0',
        b'a'..=b'f' => b - b'a' + 10,
        b'A'..=b'F' => b - b'A' + 10,
        _ => 0,
    };
    value as u64
}

/// The value with one more digit, where it is below 2^64.
fn with_digit(radix: u64, value: u64, digit: u8) -> Option<u64>
    ensures { result ≡ scan.held (value * radix + numbers.digit_value digit) }
{
    value.checked_mul(radix)?.checked_add(digit_value(digit))
}

/// The number that digits stand for, where it is below 2^64.
fn in_base(radix: u64, digits: &[u8]) -> Option<u64>
    requires { 0 < radix }
    ensures { result ≡ scan.held (numbers.in_base radix digits.now) }
{
    let mut value: u64 = 0;
    for digit in digits {
        value = with_digit(radix, value, *digit)?;
    }
    Some(value)
}

fn digits_value(base: Base, digits: &[u8]) -> Option<u64>
    ensures { result ≡ scan.held (scan.digits_value base digits.now) }
{
    match base {
        Base::Decimal => in_base(10, digits),
        Base::Hexadecimal => match digits {
            [_, _, rest @ ..] => in_base(16, rest),
            _ => Some(0),
        },
    }
}

fn begins_twice(b: u8, text: &[u8]) -> bool
    ensures { result ≡ scan.begins_twice b text.now }
{
    match text {
        [] => false,
        [c, rest @ ..] => *c == b && begins_with(b, rest),
    }
}

fn suffix_at(text: &[u8]) -> Suffix
    ensures value { result ≡ scan.suffix_at text.now }
    ensures within { scan.suffix_len result ≤ length text.now }
{
    let [b, rest @ ..] = text else {
        return Suffix::Plain;
    };
    if *b == b'u' {
        return if begins_twice(b'l', rest) {
            Suffix::Ull
        } else {
            Suffix::U
        };
    }
    if *b == b'U' {
        return if begins_twice(b'L', rest) {
            Suffix::Ull
        } else {
            Suffix::U
        };
    }
    if begins_twice(b'l', text) || begins_twice(b'L', text) {
        return Suffix::Ll;
    }
    Suffix::Plain
}

fn suffix_len(suffix: Suffix) -> usize
    ensures { result ≡ scan.suffix_len suffix }
{
    match suffix {
        Suffix::Plain => 0,
        Suffix::U => 1,
        Suffix::Ll => 2,
        Suffix::Ull => 3,
    }
}

/// The kinds that a number may have, in the order in which they are tried.
fn kinds_of(base: Base, suffix: Suffix) -> &'static [NumKind]
    ensures { result.now ≡ numbers.kinds_of base suffix }
{
    match (base, suffix) {
        (Base::Decimal, Suffix::Plain) => &[NumKind::I32, NumKind::I64],
        (Base::Decimal, Suffix::Ll) => &[NumKind::I64],
        (Base::Hexadecimal, Suffix::Plain) => &[
            NumKind::I32,
            NumKind::U32,
            NumKind::I64,
            NumKind::U64,
        ],
        (Base::Hexadecimal, Suffix::Ll) => &[NumKind::I64, NumKind::U64],
        (_, Suffix::U) => &[NumKind::U32, NumKind::U64],
        (_, Suffix::Ull) => &[NumKind::U64],
    }
}

fn is_held(kind: NumKind, value: u64) -> bool
    ensures { result ≡ nat_lt value (numbers.bound_of kind) }
{
    match kind {
        NumKind::Bool => value < 2,
        NumKind::I8 => value < 1 << 7,
        NumKind::U8 => value < 1 << 8,
        NumKind::I16 => value < 1 << 15,
        NumKind::U16 => value < 1 << 16,
        NumKind::I32 => value < 1 << 31,
        NumKind::U32 => value < 1 << 32,
        NumKind::I64 => value < 1 << 63,
        NumKind::U64 => true,
    }
}

fn kind_for(value: u64, kinds: &[NumKind]) -> Option<NumKind>
    ensures { result ≡ numbers.kind_for value kinds.now }
{
    for kind in kinds {
        if is_held(*kind, value) {
            return Some(*kind);
        }
    }
    None
}

/// Where the value isn't below 2^64 it isn't given.
fn number_verdict(base: Base, suffix: Suffix, value: Option<u64>) -> Result<TokKind, Rule>
    ensures small { IfSome value (λ v. result ≡ numbers.number_verdict base v suffix) }
    ensures large { IfNone value (result ≡ Err L3) }
{
    let Some(value) = value else {
        return Err(Rule::L3);
    };
    match kind_for(value, kinds_of(base, suffix)) {
        Some(kind) => Ok(TokKind::Number { value, kind }),
        None => Err(Rule::L3),
    }
}

/// The number at the front of a text that begins with a digit.
#[tactic(auto, unfolding(crate::specs::NumberScan::number_lexeme))]
pub fn number(text: &[u8]) -> Lexeme
    ensures value { result ≡ scan.number_lexeme text.now }
    ensures within { result.len ≤ length text.now }
{
    let base = base_at(text);
    let (digits, rest) = text.split_at(digits_len(text));
    let suffix = suffix_at(rest);
    let value = digits_value(base, digits);
    Lexeme {
        kind: number_verdict(base, suffix, value),
        len: digits.len() + suffix_len(suffix),
    }
}
