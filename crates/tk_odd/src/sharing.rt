//! What tasks waited in a step, shared out, and what of it each is charged with.
ghost use Rattle.std.specs.Prelude.{◌≡◌, ◌≤◌, ◌^◌, List, length};
ghost use Rattle.tk_odd.specs.Apart as apart;
ghost use Rattle.tk_odd.specs.Charging as charging;
ghost use Rattle.tk_odd.specs.declared.moved.Moved.{Moved as MovedView};
ghost use Rattle.tk_odd.specs.Sharing as spec;
ghost use Rattle.tk_odd.specs.Victims as victims;

use crate::apart::{Stretch, is_outside, only_run};
use crate::gain::Gain;
use crate::moved::Moved;

const WHOLE: u64 = 4_294_967_296;

// During which part of a time a task waited, in 2^32 of it.
fn part_of(waited: u64, time: u128) -> u64
    ensures part { result ≡ spec.part_of waited time }
    ensures most { result ≤ 4294967296 }
{
    if time == 0 {
        return 0;
    }
    let part = u128::from(waited) * u128::from(WHOLE) / time;
    if part < u128::from(WHOLE) {
        part as u64
    } else {
        WHOLE
    }
}

/// How long all ran. In 128 bits the sum isn't too large.
pub(crate) fn all_ran(moved: &[Moved]) -> u128
    requires { length moved.now ≤ 2 ^ 31 }
    ensures { result ≡ spec.all_ran moved.now }
{
    let mut sum = 0u128;
    for one in moved {
        let ran = one.gain.ran;
        sum += u128::from(ran);
    }
    sum
}

// During which part of the time that others ran a task waited, where all ran so long.
fn part_in(ran: u128, one: &Moved) -> u64
    ensures part { (moved : List MovedView) → ran ≡ spec.all_ran moved → result ≡ spec.part_in moved one.now }
    ensures most { result ≤ 4294967296 }
{
    part_of(
        one.gain.waited,
        ran.saturating_sub(u128::from(one.gain.ran)),
    )
}

/// The parts of all.
pub(crate) fn all_parts(moved: &[Moved], ran: u128) -> u128
    requires few { length moved.now ≤ 2 ^ 31 }
    requires ran { ran ≡ spec.all_ran moved.now }
    ensures parts { result ≡ spec.all_parts moved.now }
    ensures most { result ≤ 2 ^ 63 }
{
    let mut sum = 0u128;
    for one in moved {
        sum += u128::from(part_in(ran, one));
    }
    sum
}

// For how long a task held up the others, where all ran so long, and their parts are so much.
fn held_by(ran: u128, parts: u128, one: &Moved) -> u128
    requires { parts ≤ 2 ^ 63 }
    ensures held { (moved : List MovedView) → ran ≡ spec.all_ran moved → parts ≡ spec.all_parts moved → result ≡ spec.held_by moved one.now }
    ensures most { result ≤ 2 ^ 95 }
{
    let others = parts.saturating_sub(u128::from(part_in(ran, one)));
    u128::from(one.gain.ran) * others / u128::from(WHOLE)
}

// Whether a task ran long in a step of this time. In 128 bits no product is too large.
fn ran_long(long: u64, time: u64, gain: Gain) -> bool
    ensures { result ≡ charging.ran_long long time gain }
{
    let half = u128::from(time) <= 2 * u128::from(gain.ran);
    let slow = u128::from(long) * u128::from(gain.polls.max(1)) <= 100 * u128::from(gain.ran);
    long <= gain.longest || half && slow
}

// Whether what another task waited is known to lie apart from what one ran, whose only run is this.
fn is_apart(now: u64, run: Option<Stretch>, one: &Moved, other: &Moved) -> bool
    ensures { run ≡ apart.only_run now one.now → result ≡ apart.is_apart now one.now other.now }
{
    match run {
        Some(run) => one.task != other.task && is_outside(now, other, run),
        None => false,
    }
}

// The parts of those whose waits are known to lie apart from what a task ran.
fn apart_parts(now: u64, moved: &[Moved], ran: u128, one: &Moved) -> u128
    requires few { length moved.now ≤ 2 ^ 31 }
    requires ran { ran ≡ spec.all_ran moved.now }
    ensures parts { result ≡ charging.apart_parts now moved.now one.now }
    ensures most { result ≤ 2 ^ 63 }
{
    let run = only_run(now, one);
    let mut sum = 0u128;
    for other in moved {
        if is_apart(now, run, one, other) {
            sum += u128::from(part_in(ran, other));
        }
    }
    sum
}

// For how long a task held up those others whose waits aren't known to lie apart.
fn blame_of(now: u64, moved: &[Moved], ran: u128, parts: u128, one: &Moved) -> u128
    requires few { length moved.now ≤ 2 ^ 31 }
    requires ran { ran ≡ spec.all_ran moved.now }
    requires parts { parts ≡ spec.all_parts moved.now }
    requires most { parts ≤ 2 ^ 63 }
    ensures blame { result ≡ charging.blame_of now moved.now one.now }
    ensures most { result ≤ 2 ^ 95 }
{
    let others = parts.saturating_sub(u128::from(part_in(ran, one)));
    let met = others.saturating_sub(apart_parts(now, moved, ran, one));
    u128::from(one.gain.ran) * met / u128::from(WHOLE)
}

/// For how long a task held up another, where all ran so long.
pub(crate) fn held_for(now: u64, ran: u128, one: &Moved, other: &Moved) -> u128
    ensures { (moved : List MovedView) → ran ≡ spec.all_ran moved → result ≡ victims.held_for now moved one.now other.now }
{
    let run = only_run(now, one);
    if one.task == other.task || is_apart(now, run, one, other) {
        return 0;
    }
    u128::from(one.gain.ran) * u128::from(part_in(ran, other)) / u128::from(WHOLE)
}

/// What a task is charged with in a step of this time that ends now, where all ran so long, and their parts are so much.
pub(crate) fn charge_of(
    long: u64,
    time: u64,
    now: u64,
    moved: &[Moved],
    ran: u128,
    parts: u128,
    one: &Moved,
) -> u128
    requires few { length moved.now ≤ 2 ^ 31 }
    requires ran { ran ≡ spec.all_ran moved.now }
    requires parts { parts ≡ spec.all_parts moved.now }
    requires most { parts ≤ 2 ^ 63 }
    ensures charge { result ≡ charging.charge_of long time now moved.now one.now }
    ensures most { result ≤ 2 ^ 95 }
{
    if !ran_long(long, time, one.gain) {
        return 0;
    }
    let blame = blame_of(now, moved, ran, parts, one);
    if u128::from(long) <= blame { blame } else { 0 }
}

/// What all tasks are charged with in a step of this time that ends now, where all ran so long, and their parts are so much.
pub(crate) fn all_charged(
    long: u64,
    time: u64,
    now: u64,
    moved: &[Moved],
    ran: u128,
    parts: u128,
) -> u128
    requires few { length moved.now ≤ 2 ^ 31 }
    requires ran { ran ≡ spec.all_ran moved.now }
    requires parts { parts ≡ spec.all_parts moved.now }
    requires most { parts ≤ 2 ^ 63 }
    ensures { result ≡ charging.all_charged long time now moved.now }
{
    let mut sum = 0u128;
    for one in moved {
        sum += charge_of(long, time, now, moved, ran, parts, one);
    }
    sum
}

/// For how long all tasks held up others, where all ran so long, and their parts are so much.
pub(crate) fn all_held(moved: &[Moved], ran: u128, parts: u128) -> u128
    requires few { length moved.now ≤ 2 ^ 31 }
    requires ran { ran ≡ spec.all_ran moved.now }
    requires parts { parts ≡ spec.all_parts moved.now }
    requires most { parts ≤ 2 ^ 63 }
    ensures { result ≡ spec.all_held moved.now }
{
    let mut sum = 0u128;
    for one in moved {
        sum += held_by(ran, parts, one);
    }
    sum
}

/// How long all waited.
pub(crate) fn all_waited(moved: &[Moved]) -> u128
    requires { length moved.now ≤ 2 ^ 31 }
    ensures { result ≡ spec.all_waited moved.now }
{
    let mut sum = 0u128;
    for one in moved {
        let waited = one.gain.waited;
        sum += u128::from(waited);
    }
    sum
}
