//! Numbers and items.

ghost use Rattle.std.specs.Prelude.{◌≡◌, ◌-◌, ◌^◌, min};
ghost use Rattle.std.specs.List.{list_all};
ghost use Rattle.flip_plan.specs.Numbers as spec;

use crate::line::Word;
use crate::pieces::{Pieces, Separator};

/// Turns of one thread, as an item of a line gives them.
#[derive(Clone, Copy, Debug, PartialEq, Eq)]
pub(crate) struct Item {
    pub(crate) thread: u32,
    pub(crate) count: u32,
    /// How many bytes of the item stand before its count, where the count is written.
    pub(crate) ahead: usize,
}

fn is_digit(b: u8) -> bool
    ensures { result ≡ spec.is_digit b }
{
    b'0' <= b && b <= b'9'
}

/// One digit more, up to the largest number of 32 bits.
fn with_digit(n: u32, b: u8) -> u32
    ensures { result ≡ min (spec.with_digit n b) (2 ^ 32 - 1) }
{
    let digit = b.saturating_sub(b'0') as u32;
    n.saturating_mul(10).saturating_add(digit)
}

fn value(digits: &[u8]) -> u32
    ensures { result ≡ spec.value digits.now }
{
    let mut n = 0;
    for digit in digits {
        n = with_digit(n, *digit);
    }
    n
}

fn are_digits(text: &[u8]) -> bool
    ensures { result ≡ list_all spec.is_digit text.now }
{
    text.iter().all(|b| is_digit(*b))
}

/// The number that a word is, up to the largest of 32 bits.
pub(crate) fn read_number(text: &[u8]) -> Option<u32>
    ensures { result ≡ spec.number text.now }
{
    match text {
        [] => None,
        _ => {
            if are_digits(text) {
                Some(value(text))
            } else {
                None
            }
        }
    }
}

fn once(thread: &[u8]) -> Option<Item>
    ensures { result ≡ spec.once (spec.number thread.now) }
{
    match read_number(thread) {
        None => None,
        Some(thread) => Some(Item {
            thread,
            count: 1,
            ahead: 0,
        }),
    }
}

fn often(ahead: usize, thread: u32, count: u32) -> Option<Item>
    ensures { result ≡ spec.often ahead thread count }
{
    if count == 0 {
        None
    } else {
        Some(Item {
            thread,
            count,
            ahead,
        })
    }
}

fn times(ahead: usize, thread: &[u8], count: &[u8]) -> Option<Item>
    ensures { result ≡ spec.times ahead (spec.number thread.now) (spec.number count.now) }
{
    match (read_number(thread), read_number(count)) {
        (Some(thread), Some(count)) => often(ahead, thread, count),
        _ => None,
    }
}

/// The turns that a word is.
pub(crate) fn read_item(text: &[u8]) -> Option<Item>
    ensures { result ≡ spec.item_of text.now }
{
    let mut pieces = Pieces::new(Separator::Star, text);
    let Some(thread) = pieces.next() else {
        return None;
    };
    let Some(count) = pieces.next() else {
        return once(thread);
    };
    match pieces.next() {
        None => times(thread.len() + 1, thread, count),
        Some(_) => None,
    }
}

/// The number at a place among words, or 0.
pub(crate) fn number_at(words: &[Word], index: usize) -> u32
    ensures { result ≡ spec.number_at words.now index }
{
    match words.get(index) {
        None => 0,
        Some(word) => match read_number(word.text()) {
            None => 0,
            Some(n) => n,
        },
    }
}
