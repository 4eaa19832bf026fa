//! How many check words there are, and which positions members have.

ghost use Rattle.std.specs.Prelude.{◌≡◌, ◌≤◌, ◌+◌, ◌*◌, ◌<◌, ◌^◌};
ghost use Rattle.hamming_gen.specs.Positions as spec;

/// How many check words so many members have.
pub(crate) fn check_words(members: usize) -> usize
    requires { members < 2 ^ 61 }
    ensures count { result ≡ spec.check_words members }
    ensures few { result ≤ 63 }
{
    let mut power: usize = 1;
    for count in 0..members + 1 {
        if members + count + 1 <= power {
            return count;
        }
        power *= 2;
    }
    members + 1
}

/// The position after this one that is no power of two.
pub(crate) fn next_position(position: usize) -> usize
    requires { position < 2 ^ 63 }
    ensures next { result ≡ spec.next_position position }
    ensures near { result ≤ position + 2 }
{
    if (position + 1).is_power_of_two() {
        position + 2
    } else {
        position + 1
    }
}
