ghost use Rattle.std.specs.Prelude.{◌≡◌, ◌<◌, ◌≤◌, length};
ghost use Rattle.ring_model.specs.Limits.{value_limit};
ghost use Rattle.ring_model.specs.Ring.{bound, is_settled, lead, privileged_count, rest};
ghost use Rattle.ring_model.specs.Surveys.{survey_from};

use ring_model::Survey;
use ring_state::RingState;

/// The bound of the rest, 3n(n-1)/2, of a ring of `n` machines; `n` is 2 to 65,536.
pub fn bound(n: u32) -> u64
    requires few { 2 ≤ n }
    requires many { n ≤ value_limit }
    ensures { result ≡ bound n }
{
    3 * n as u64 * (n as u64 - 1) / 2
}

/// Whether exactly one machine is privileged.
pub fn is_settled(state: &RingState) -> bool
    ensures { result ≡ is_settled state.now.values }
{
    state.privileged() == 1
}

/// The lead: 0 where the machines that hold the value of machine 0 are a prefix of the ring, else how far
/// machine 0 has to step, from 1 on, until no other machine holds its value. It is below n.
pub fn lead(state: &RingState) -> u32
    ensures is { result ≡ lead state.now }
    ensures below { result < length state.now.values }
{
    let k = state.params().k();
    if state.first_value_is_prefix() {
        return 0;
    }
    let own = state.get(0);
    for steps in 1..k {
        if !state.holds_past_first((own + steps) % k) {
            return steps;
        }
    }
    unreachable!()
}

/// The rest: at most this many granted passes are left until the ring is settled, where no corruption comes
/// between. It is at most the bound of the ring's n.
pub fn rest(state: &RingState) -> u64
    ensures is { result ≡ rest state.now }
    ensures bounded { result ≤ bound (length state.now.values) }
{
    rest_of_counted(state, state.privileged())
}

/// Returns the rest of a ring whose number of privileged machines is known, so that they are not counted again.
#[inline(always)]
fn rest_of_counted(state: &RingState, privileged: u32) -> u64
    requires { privileged ≡ privileged_count state.now.values }
    ensures is { result ≡ rest state.now }
    ensures bounded { result ≤ bound (length state.now.values) }
{
    let n = state.params().n();
    if privileged == 1 {
        return 0;
    }
    state.weight() + n as u64 * lead(state) as u64
}

/// The survey of this ring at a position of its history, with the calm there.
#[inline]
pub fn survey_here(state: &RingState, position: u64, calm: u64) -> Survey
    ensures { result ≡ survey_from state.now position calm }
{
    let privileged = state.privileged();
    Survey {
        position,
        privileged,
        first: state.first(),
        calm,
        rest: rest_of_counted(state, privileged),
    }
}
