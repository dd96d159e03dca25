//! The delays of connections: when what is made at a time comes, and which questions it can answer.
ghost use Rattle.std.specs.Prelude.{◌≡◌, ◌≤◌, ◌&&◌, ◌||◌, true, pos, Some, int_le, int_lt, ◌≤ℤ◌};
ghost use Rattle.std.specs.List.{list_all};
ghost use Rattle.mk_base.specs.declared.tier.Tier.{Tier};
ghost use Rattle.mk_base.specs.Tiers.{delayed, up_to, HasWidth, IsUpTo, latest_time};
ghost use Rattle.mk_plan.specs.Inputs.{is_since};
ghost use Rattle.mk_buffers_log.specs.Logs.{is_in_time, is_settled};
ghost use Rattle.mk_buffers_log.specs.inner.Logs.{comes_with, does_come, is_overtaken};
ghost use Rattle.mk_base.specs.Limits.{greatest_tier};

use mk_base::{Tier, Via};
use std::marker::Model;

/// A connection's delay, whose width is within the limits.
#[derive(Clone, Copy)]
pub struct Delay {
    via: Via,
}

impl Model for Delay {
    ghost use Rattle.mk_base.specs.Tiers.{HasWidth};
    ghost use Rattle.mk_base.specs.declared.tier.Via.{Via};

    ghost Value = { Via };

    ghost view = { λ d. d.via };

    ghost invariant = { λ d. HasWidth d.via };

    ghost inverse = { λ v. record { via = v } };
}

impl Delay {
    /// The delay of a connection.
    pub fn of(via: Via) -> Delay
        requires { HasWidth via }
        ensures { result ≡ via }
    {
        Delay { via }
    }

    /// The connection's delay, as its plan has it.
    pub fn via(self) -> Via
        ensures same { result ≡ self }
        ensures width { HasWidth result }
    {
        self.via
    }
}

/// What is made at a time is delivered by a connection's delay up to `at`, and before the run's end, where there is
/// one.
pub fn is_delivered(made: Tier, via: Delay, until: Option<i64>, at: Tier) -> bool
    requires early { pos 0 ≤ℤ made.time }
    requires late { made.time ≤ℤ latest_time }
    requires low { made.tier ≤ greatest_tier }
    ensures { result ≡ does_come via until at made }
{
    let arrival = made.after(via.via());
    arrival.is_up_to(at) && is_in_time(arrival, until)
}

// The time comes before the run's end, where there is one.
fn is_in_time(arrival: Tier, until: Option<i64>) -> bool
    ensures { result ≡ is_in_time until arrival }
{
    match until {
        Some(end) => arrival.time < end,
        None => true,
    }
}

/// The time comes after the previous step, or there was none.
pub fn is_since(previous: Option<Tier>, arrival: Tier) -> bool
    ensures { result ≡ is_since previous arrival }
{
    match previous {
        Some(step) => !arrival.is_up_to(step),
        None => true,
    }
}

/// Neither the making nor, by any of these delays, the delivery before the run's end of what is made at a time is later
/// than the mark.
pub fn is_settled(made: Tier, vias: &[Delay], until: i64, mark: Tier) -> bool
    requires early { pos 0 ≤ℤ made.time }
    requires late { made.time ≤ℤ latest_time }
    requires low { made.tier ≤ greatest_tier }
    ensures { result ≡ is_settled vias.now until mark made }
{
    if made.is_up_to(mark) {
        has_come_or_never(made, vias, until, mark)
    } else {
        false
    }
}

// What is made at a time has come by the mark by each of these delays that deliver it before the run's end.
fn has_come_or_never(made: Tier, vias: &[Delay], until: i64, mark: Tier) -> bool
    requires early { pos 0 ≤ℤ made.time }
    requires late { made.time ≤ℤ latest_time }
    requires low { made.tier ≤ greatest_tier }
    ensures { result ≡ list_all (λ v. up_to (delayed made v) mark
        || int_le until (delayed made v).time) vias.now }
{
    for via in vias {
        if !comes_by_or_never(made, *via, until, mark) {
            return false;
        }
    }
    true
}

// What is made at a time has come by the mark by this delay, or never comes before the run's end.
fn comes_by_or_never(made: Tier, via: Delay, until: i64, mark: Tier) -> bool
    requires early { pos 0 ≤ℤ made.time }
    requires late { made.time ≤ℤ latest_time }
    requires low { made.tier ≤ greatest_tier }
    ensures { result ≡ (up_to (delayed made via) mark || int_le until (delayed made via).time) }
{
    let arrival = made.after(via.via());
    arrival.is_up_to(mark) || until <= arrival.time
}

/// At the mark what is made second has come, and by each of these delays it has come before the run's end too, or the
/// first never comes before that end.
pub fn is_overtaken(first: Tier, second: Tier, vias: &[Delay], until: i64, mark: Tier) -> bool
    requires early { pos 0 ≤ℤ first.time }
    requires late { first.time ≤ℤ latest_time }
    requires low { first.tier ≤ greatest_tier }
    requires second_early { pos 0 ≤ℤ second.time }
    requires second_late { second.time ≤ℤ latest_time }
    requires second_low { second.tier ≤ greatest_tier }
    ensures { result ≡ is_overtaken vias.now until mark first second }
{
    if second.is_up_to(mark) {
        has_replaced(first, second, vias, until, mark)
    } else {
        false
    }
}

// By each of these delays the second has come by the mark, or the first never comes before the run's end.
fn has_replaced(first: Tier, second: Tier, vias: &[Delay], until: i64, mark: Tier) -> bool
    requires early { pos 0 ≤ℤ first.time }
    requires late { first.time ≤ℤ latest_time }
    requires low { first.tier ≤ greatest_tier }
    requires second_early { pos 0 ≤ℤ second.time }
    requires second_late { second.time ≤ℤ latest_time }
    requires second_low { second.tier ≤ greatest_tier }
    ensures { result ≡ list_all (λ v. does_come v (Some until) mark second
        || int_le until (delayed first v).time) vias.now }
{
    for via in vias {
        if !replaces_by(first, second, *via, until, mark) {
            return false;
        }
    }
    true
}

// By this delay the second has come by the mark, or the first never comes before the run's end.
fn replaces_by(first: Tier, second: Tier, via: Delay, until: i64, mark: Tier) -> bool
    requires early { pos 0 ≤ℤ first.time }
    requires late { first.time ≤ℤ latest_time }
    requires low { first.tier ≤ greatest_tier }
    requires second_early { pos 0 ≤ℤ second.time }
    requires second_late { second.time ≤ℤ latest_time }
    requires second_low { second.tier ≤ greatest_tier }
    ensures { result ≡ (does_come via (Some until) mark second
        || int_le until (delayed first via).time) }
{
    is_delivered(second, via, Some(until), mark) || until <= first.after(via.via()).time
}

/// By each of these delays by which what is made first comes before the run's end, what is made second does too.
pub fn comes_with(first: Tier, second: Tier, vias: &[Delay], until: i64) -> bool
    requires early { pos 0 ≤ℤ first.time }
    requires late { first.time ≤ℤ latest_time }
    requires low { first.tier ≤ greatest_tier }
    requires second_early { pos 0 ≤ℤ second.time }
    requires second_late { second.time ≤ℤ latest_time }
    requires second_low { second.tier ≤ greatest_tier }
    ensures { result ≡ comes_with vias.now until first second }
{
    for via in vias {
        if !comes_with_by(first, second, *via, until) {
            return false;
        }
    }
    true
}

// By this delay what is made first never comes before the run's end, or what is made second does too.
fn comes_with_by(first: Tier, second: Tier, via: Delay, until: i64) -> bool
    requires early { pos 0 ≤ℤ first.time }
    requires late { first.time ≤ℤ latest_time }
    requires low { first.tier ≤ greatest_tier }
    requires second_early { pos 0 ≤ℤ second.time }
    requires second_late { second.time ≤ℤ latest_time }
    requires second_low { second.tier ≤ greatest_tier }
    ensures { result ≡ (int_le until (delayed first via).time
        || int_lt (delayed second via).time until) }
{
    until <= first.after(via.via()).time || second.after(via.via()).time < until
}

/// A time that is no later than any mark at which what is made at a time is settled.
pub fn settling(made: Tier, vias: &[Delay], until: i64) -> Tier
    requires early { pos 0 ≤ℤ made.time }
    requires late { made.time ≤ℤ latest_time }
    requires low { made.tier ≤ greatest_tier }
    ensures { (m : Tier) → is_settled vias.now until m made ≡ true → IsUpTo result m }
{
    let mut last = made;
    for via in vias {
        last = settling_by(last, made, *via, until);
    }
    last
}

// The later of a time and the one at which what is made comes by this delay, if that is before the run's end.
fn settling_by(last: Tier, made: Tier, via: Delay, until: i64) -> Tier
    requires early { pos 0 ≤ℤ made.time }
    requires late { made.time ≤ℤ latest_time }
    requires low { made.tier ≤ greatest_tier }
    ensures { (m : Tier) → IsUpTo last m → up_to (delayed made via) m
        || int_le until (delayed made via).time ≡ true → IsUpTo result m }
{
    let arrival = made.after(via.via());
    if is_in_time(arrival, Some(until)) {
        later_of(last, arrival)
    } else {
        last
    }
}

// The later of two times: it is up to every time up to which both are.
fn later_of(first: Tier, second: Tier) -> Tier
    ensures { (m : Tier) → IsUpTo first m → IsUpTo second m → IsUpTo result m }
{
    if first.is_up_to(second) {
        second
    } else {
        first
    }
}
