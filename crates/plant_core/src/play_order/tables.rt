//! Tables over all plays: their phases, and the next play of each list.

ghost use Rattle.std.specs.Prelude.{◌≡◌, ◌+◌, ◌<◌, ◌≤◌, ◌^◌, ℕ, List, length, IfOk, MatchBool};
ghost use Rattle.plant_rules.specs.History.{phase_of};
ghost use Rattle.plant_core.specs.play_order.Private.Tables.{HavePhases, IsEarlier, HaveNext, AreLinked, IsLeft, IsLeast, StillAt, Rises, number_at};

use plc_text::NoMemory;
use std::alloc::Global;

// How many of the phases end at the play or before it.
fn phases_behind(phases: &[(u32, u32)], play: u32) -> usize
    ensures value { result ≡ phase_of phases.now play }
    ensures within { result ≤ length phases.now }
{
    let mut n = 0;
    for phase in phases {
        if play < phase.1 {
            return n;
        }
        n += 1;
    }
    n
}

/// The number of the phase of each play, from the number 0 on, which is no play's.
pub fn phase_numbers(
    alloc: Global,
    plays: u32,
    phases: &[(u32, u32)],
) -> Result<Vec<usize>, NoMemory>
    ensures { IfOk result (λ numbers. HavePhases phases.now numbers.items plays) }
{
    let mut numbers = Vec::with_capacity(alloc, plays as usize)?;
    let mut left = phases;
    for play in 0..plays {
        left = &left[phases_behind(left, play)..];
        numbers.push(phases.len() - left.len())?;
    }
    Ok(numbers)
}

/// Whether the phase of the first play without an entry stands before that of the play.
pub fn is_earlier(numbers: &[usize], first: u32, play: u32) -> bool
    requires { play < length numbers.now }
    ensures { MatchBool result (IsEarlier numbers.now first play) (IsEarlier numbers.now first play → ⊥) }
{
    if first >= play {
        return false;
    }
    numbers[first as usize] < numbers[play as usize]
}

/// For each play the next one of its list, and for each list the first one; behind the last stands the number behind all
/// plays.
pub fn next_plays(
    alloc: Global,
    lanes: &[u32],
    lists: usize,
) -> Result<(Vec<u32>, Vec<u32>), NoMemory>
    requires few { length lanes.now < 2 ^ 32 }
    requires some { 1 ≤ length lanes.now }
    requires lists { (p : ℕ) → number_at lanes.now p < lists }
    ensures { IfOk result (λ tables. AreLinked lanes.now lists 1 tables.0.items tables.1.items) }
{
    let behind = lanes.len() as u32;
    let mut following = vec![in alloc; behind; lanes.len()]?;
    let mut next = vec![in alloc; behind; lists]?;
    let mut play = lanes.len();
    'plays: while play > 1 {
        play -= 1;
        let lane = lanes[play] as usize;
        following[play] = next[lane];
        next[lane] = play as u32;
    }
    Ok((following, next))
}

/// The first play of its list from this one on that has no entry.
pub fn next_left(following: &[u32], done: &[bool], from: u32) -> u32
    requires same { length following.now ≡ length done.now }
    requires rises { Rises following.now }
    ensures left { (lanes : List ℕ) (l : ℕ) → length lanes ≡ length done.now → HaveNext lanes following.now 1 → 1 ≤ from → IsLeft lanes done.now l from → IsLeft lanes done.now l result }
    ensures still { StillAt done.now result }
{
    let mut next = from;
    'plays: while (next as usize) < done.len() && done[next as usize] {
        next = following[next as usize];
    }
    next
}

/// The first play from this one on that has no entry.
pub fn first_left(done: &[bool], from: u32) -> u32
    requires { length done.now < 2 ^ 32 }
    ensures left { IsLeast done.now from → IsLeast done.now result }
    ensures still { StillAt done.now result }
{
    let mut first = from;
    'plays: while (first as usize) < done.len() && done[first as usize] {
        first += 1;
    }
    first
}
