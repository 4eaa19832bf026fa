//! Which rules a line violates, and where.

ghost use Rattle.std.specs.Prelude.{◌≡◌, ◌≤◌, length, take, drop};
ghost use Rattle.agxx_base.specs.Refusals.{least_from};
ghost use Rattle.flip_plan.specs.Kinds.{first_column, behind};
ghost use Rattle.flip_plan.specs.Numbers as numbers;
ghost use Rattle.flip_plan.specs.Rules as spec;

use crate::line::{Line, LineKind, Word};
use crate::numbers::{Item, read_item, read_number};
use crate::seen::Seen;
use agxx_base::{Place, Refusal, Rule, nearer};

fn refusal(rule: Rule, line: &Line, column: u32) -> Refusal
    ensures { result ≡ spec.refusal rule line.now column }
{
    Refusal {
        rule,
        place: Place {
            file: line.file(),
            line: line.number(),
            column,
        },
    }
}

fn front<'w, 't>(words: &'w [Word<'t>], count: usize) -> &'w [Word<'t>]
    ensures { result.now ≡ take count words.now }
{
    if count < words.len() {
        &words[..count]
    } else {
        words
    }
}

fn past<'w, 't>(words: &'w [Word<'t>], count: usize) -> &'w [Word<'t>]
    ensures { result.now ≡ drop count words.now }
{
    if count < words.len() {
        &words[count..]
    } else {
        &[]
    }
}

fn at_each(found: Option<Refusal>, line: &Line, words: &[Word]) -> Option<Refusal>
    ensures { result ≡ least_from found (spec.at_each line.now words.now) }
{
    let mut least = found;
    for word in words {
        least = nearer(least, refusal(Rule::F1, line, word.column()));
    }
    least
}

/// Unknown and surplus words.
#[tactic(auto, unfolding(crate::specs::Rules::strange))]
fn strange(found: Option<Refusal>, line: &Line) -> Option<Refusal>
    ensures { result ≡ least_from found (spec.strange line.now) }
{
    match line.ruled() {
        LineKind::Unknown => nearer(found, refusal(Rule::F1, line, line.first_column())),
        LineKind::Limit => at_each(found, line, past(line.behind(), 1)),
        LineKind::Flip => at_each(found, line, past(line.behind(), 4)),
        _ => found,
    }
}

fn fewest(kind: LineKind) -> usize
    ensures { result ≡ spec.fewest kind }
{
    match kind {
        LineKind::Limit => 1,
        LineKind::Turns => 1,
        LineKind::Cycle => 1,
        LineKind::Flip => 4,
        _ => 0,
    }
}

fn wanted<'w, 't>(kind: LineKind, words: &'w [Word<'t>]) -> &'w [Word<'t>]
    ensures { result.now ≡ spec.wanted kind words.now }
{
    match kind {
        LineKind::Limit => front(words, 1),
        LineKind::Flip => front(words, 4),
        LineKind::Turns => words,
        LineKind::Cycle => words,
        _ => &[],
    }
}

fn is_malformed(kind: LineKind, text: &[u8]) -> bool
    ensures { result ≡ spec.is_malformed kind text.now }
{
    match kind {
        LineKind::Turns => read_item(text).is_none(),
        LineKind::Cycle => read_item(text).is_none(),
        _ => read_number(text).is_none(),
    }
}

fn malformed_in(
    found: Option<Refusal>,
    kind: LineKind,
    line: &Line,
    words: &[Word],
) -> Option<Refusal>
    ensures { result ≡ least_from found (spec.malformed_in kind line.now words.now) }
{
    let mut least = found;
    for word in words {
        if is_malformed(kind, word.text()) {
            least = nearer(least, refusal(Rule::F2, line, word.column()));
        }
    }
    least
}

/// Malformed words, and words that are missing.
#[tactic(auto, unfolding(crate::specs::Rules::malformed))]
fn malformed(found: Option<Refusal>, line: &Line) -> Option<Refusal>
    ensures { result ≡ least_from found (spec.malformed line.now) }
{
    let kind = line.ruled();
    let words = line.behind();
    let read = wanted(kind, words);
    if words.len() < fewest(kind) {
        malformed_in(
            nearer(found, refusal(Rule::F2, line, line.end())),
            kind,
            line,
            read,
        )
    } else {
        malformed_in(found, kind, line, read)
    }
}

fn greatest(kind: LineKind, index: usize) -> u32
    ensures { result ≡ spec.greatest kind index }
{
    match kind {
        LineKind::Flip => {
            if index == 0 {
                99_999_999
            } else if index < 3 {
                65_535
            } else {
                63
            }
        }
        _ => 100_000_000,
    }
}

fn is_above(most: u32, number: Option<u32>) -> bool
    ensures { result ≡ spec.is_above most number }
{
    match number {
        None => false,
        Some(n) => most < n,
    }
}

fn large_numbers(
    found: Option<Refusal>,
    kind: LineKind,
    line: &Line,
    words: &[Word],
) -> Option<Refusal>
    ensures { result ≡ least_from found (spec.large_numbers kind line.now 0 words.now) }
{
    let mut least = found;
    for index in 0..words.len() {
        let word = &words[index];
        if is_above(greatest(kind, index), read_number(word.text())) {
            least = nearer(least, refusal(Rule::F3, line, word.column()));
        }
    }
    least
}

/// How much room for turns an item leaves.
fn room_past(room: u32, item: Option<Item>) -> u32
    ensures { result ≡ spec.room_past room item }
{
    match item {
        None => room,
        Some(item) => room.saturating_sub(item.count),
    }
}

fn is_too_much(room: u32, item: Option<Item>) -> bool
    ensures { result ≡ spec.is_too_much room item }
{
    match item {
        None => false,
        Some(item) => 63 < item.thread || room < item.count,
    }
}

fn is_too_often(item: Option<Item>) -> bool
    ensures { result ≡ spec.is_too_often item }
{
    match item {
        None => false,
        Some(item) => 100_000_000 < item.count,
    }
}

fn ahead_of_count(item: Option<Item>) -> usize
    ensures { result ≡ spec.ahead_of_count item }
{
    match item {
        None => 0,
        Some(item) => item.ahead,
    }
}

/// What an item violates where there is room for so many turns.
#[tactic(auto, using(crate::proofs::Items::ahead_within))]
fn large_item(found: Option<Refusal>, line: &Line, room: u32, word: &Word) -> Option<Refusal>
    ensures { result ≡ least_from found (spec.large_item line.now room word.now (numbers.item_of word.now.text)) }
{
    let item = read_item(word.text());
    let mut least = found;
    if is_too_much(room, item) {
        least = nearer(least, refusal(Rule::F3, line, word.column()));
    }
    if is_too_often(item) {
        let column = word.column_behind(ahead_of_count(item));
        least = nearer(least, refusal(Rule::F3, line, column));
    }
    least
}

#[tactic(auto, using(agxx_base::proofs::Leasts::least_append))]
fn large_items(found: Option<Refusal>, line: &Line, room: u32, words: &[Word]) -> Option<Refusal>
    ensures { result ≡ least_from found (spec.large_items line.now room words.now) }
{
    let mut least = found;
    let mut left = room;
    for word in words {
        least = large_item(least, line, left, word);
        left = room_past(left, read_item(word.text()));
    }
    least
}

/// A line of a flip.
fn large_flip(found: Option<Refusal>, seen: Seen, line: &Line) -> Option<Refusal>
    ensures { result ≡ least_from found (spec.large_by LineKind.Flip seen line.now) }
{
    let words = front(line.behind(), 4);
    if seen.flip_room == 0 {
        let past = nearer(found, refusal(Rule::F3, line, line.first_column()));
        large_numbers(past, LineKind::Flip, line, words)
    } else {
        large_numbers(found, LineKind::Flip, line, words)
    }
}

/// Numbers above their limits, and what passes a total.
#[tactic(auto, unfolding(crate::specs::Rules::large))]
fn large(found: Option<Refusal>, seen: Seen, line: &Line) -> Option<Refusal>
    ensures { result ≡ least_from found (spec.large seen line.now) }
{
    match line.ruled() {
        LineKind::Limit => large_numbers(found, LineKind::Limit, line, front(line.behind(), 1)),
        LineKind::Flip => large_flip(found, seen, line),
        LineKind::Turns => large_items(found, line, seen.turn_room, line.behind()),
        LineKind::Cycle => large_items(found, line, seen.cycle_room, line.behind()),
        _ => found,
    }
}

/// A second `limit` or `cycle`.
#[tactic(auto, unfolding(crate::specs::Rules::repeated))]
fn repeated(found: Option<Refusal>, seen: Seen, line: &Line) -> Option<Refusal>
    ensures { result ≡ least_from found (spec.repeated seen line.now) }
{
    match line.ruled() {
        LineKind::Limit if seen.limit => nearer(
            found,
            refusal(Rule::F4, line, line.first_column()),
        ),
        LineKind::Cycle if seen.cycle => nearer(
            found,
            refusal(Rule::F4, line, line.first_column()),
        ),
        _ => found,
    }
}

/// The first of the violation that is found and those of a line.
#[tactic(auto, using(agxx_base::proofs::Leasts::least_append), unfolding(crate::specs::Rules::violations_in))]
pub(crate) fn check_line(found: Option<Refusal>, seen: Seen, line: &Line) -> Option<Refusal>
    ensures { result ≡ least_from found (spec.violations_in seen line.now) }
{
    let unknown = strange(found, line);
    let unread = malformed(unknown, line);
    let excessive = large(unread, seen, line);
    repeated(excessive, seen, line)
}

fn room_behind(room: u32, words: &[Word]) -> u32
    ensures { result ≡ spec.room_behind room words.now }
{
    let mut left = room;
    for word in words {
        left = room_past(left, read_item(word.text()));
    }
    left
}

/// What is known behind a line.
#[tactic(auto, unfolding(crate::specs::Rules::after))]
pub(crate) fn after(seen: Seen, line: &Line) -> Seen
    ensures { result ≡ spec.after seen line.now }
{
    match line.ruled() {
        LineKind::Limit => Seen {
            limit: true,
            ..seen
        },
        LineKind::Turns => Seen {
            turn_room: room_behind(seen.turn_room, line.behind()),
            ..seen
        },
        LineKind::Cycle => Seen {
            cycle: true,
            cycle_room: room_behind(seen.cycle_room, line.behind()),
            ..seen
        },
        LineKind::Flip => Seen {
            flip_room: seen.flip_room.saturating_sub(1),
            ..seen
        },
        _ => seen,
    }
}
