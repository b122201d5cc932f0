//! A number of a header.

#![tactic(auto, unfolding(crate::specs::Reading::shortest_at_front))]

ghost use Rattle.std.specs.Prelude.{◌≡◌, ◌<◌, ◌≤◌, ◌^◌, ◌*◌, length, IfSome};
ghost use Rattle.reel.specs.Numbers.{number_at_front};
ghost use Rattle.reel.specs.Reading.{shortest_at_front};

/// A number and how many octets it takes.
#[derive(Clone, Copy)]
pub(crate) struct Number {
    pub(crate) value: u32,
    pub(crate) len: usize,
}

/// The most groups that a number of a header has: what three cannot say is above every limit.
const GROUPS: usize = 3;

/// The number in at most so many groups that octets begin with, if it ends and has no needless group.
fn shortest_at_front(octets: &[u8], groups: usize) -> Option<Number>
    requires { groups < 4 }
    ensures is { result ≡ shortest_at_front groups octets.now }
    ensures small { IfSome result (λ n. n.value < 2 ^ (7 * groups)) }
    ensures within { IfSome result (λ n. n.len ≤ length octets.now) }
{
    let [group, others @ ..] = octets else {
        return None;
    };
    if groups == 0 {
        return None;
    }
    if *group < 128 {
        return Some(Number {
            value: u32::from(*group),
            len: 1,
        });
    }
    let higher = shortest_at_front(others, groups - 1)?;
    if higher.value == 0 {
        return None;
    }
    Some(Number {
        value: u32::from(*group - 128) + 128 * higher.value,
        len: 1 + higher.len,
    })
}

/// The number that octets begin with, if it ends, has no needless group and is at most `most`.
#[tactic(auto, using(crate::proofs::Groups::read_in_three))]
pub(crate) fn number_at_front(octets: &[u8], most: u32) -> Option<Number>
    requires { most < 2 ^ 21 }
    ensures is { result ≡ number_at_front most octets.now }
    ensures within { IfSome result (λ n. n.len ≤ length octets.now) }
{
    let number = shortest_at_front(octets, GROUPS)?;
    if number.value > most {
        return None;
    }
    Some(number)
}
