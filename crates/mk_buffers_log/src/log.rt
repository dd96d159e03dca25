//! The outputs of one entity and attribute: the search for the one that counts, and the giving up of those that no
//! question can reach.
ghost use Rattle.std.specs.Prelude.{◌≡◌, ◌+◌, ◌<◌, ◌≤◌, true, false, [], ◌∷◌, ◌++◌, length, get_or, option_map, Some, OnOk, OnErr, pos, ◌≤ℤ◌};
ghost use Rattle.std.specs.List.{insert, remove};
ghost use Rattle.std.specs.List.Sorted.{IsPartitionPoint};
ghost use Rattle.mk_base.specs.Lists.{IsIn};
ghost use Rattle.mk_base.specs.Tiers.{up_to, latest_time};
ghost use Rattle.mk_base.specs.declared.tier.Via.{Via};
ghost use Rattle.mk_plan.specs.Deliveries.{Timed};
ghost use Rattle.mk_plan.specs.Inputs.{later, latest};
ghost use Rattle.mk_buffers_log.specs.Logs.{AnswersFrom, IsAmong, IsFew, StaysFew, arrival, arrivals, by, is_due, is_settled};
ghost use Rattle.mk_buffers_log.specs.inner.Logs.{IsAscending, IsBehind, IsEarlierAt, IsNeeded, IsNewestAt, IsNewestByOf, IsOutdoneAt, IsRest, IsSpare, comes_with, is_outdone, is_overtaken, PlacedFor, Takes, does_come, weighed};
ghost use Rattle.mk_base.specs.Limits.{greatest_tier};

use crate::delays::{Delay, comes_with, is_delivered, is_overtaken, is_settled, settling};
use crate::made::Made;
use mk_base::{Mem, Tier, Via};
use std::alloc::Global;
use std::collections::VecDeque;
use std::marker::Model;

/// The outputs of one entity and attribute. While they rise, none was made earlier than the one before it.
#[derive(Drop)]
pub struct Log {
    entries: VecDeque<Made>,
    rising: bool,
}

impl Model for Log {
    ghost use Rattle.std.specs.Prelude.{◌≡◌, true, List};
    ghost use Rattle.mk_plan.specs.Deliveries.{Timed};
    ghost use Rattle.mk_buffers_log.specs.inner.Logs.{IsAscending};

    ghost Value = { List Timed };

    ghost view = { λ l. l.entries.items };

    ghost invariant = { λ l. l.rising ≡ true → IsAscending l.entries.items };
}

impl Log {
    /// No output.
    pub fn new(alloc: Global) -> Log
        ensures { result ≡ [] }
    {
        Log {
            entries: VecDeque::new(alloc),
            rising: true,
        }
    }

    /// How many outputs there are.
    pub fn len(&self) -> usize
        ensures { result ≡ length self.now }
    {
        self.entries.len()
    }

    /// Takes one more output, which came after all others: questions are answered as with it at the end. At want of
    /// memory the outputs are as before.
    pub fn push(&mut self, new: Made) -> Result<(), Mem>
        ensures ok { OnOk result (Takes new self.old self.new) }
        ensures among { OnOk result (IsAmong self.new (self.old ++ new ∷ [])) }
        ensures err { OnErr result (self.new ≡ self.old) }
    {
        let at = new.at();
        let place = place_for(&self.entries, self.rising, at);
        if is_earlier(&self.entries, place, at) {
            insert_at(&mut self.entries, place, new)
        } else {
            push_last(&mut self.entries, &mut self.rising, place, new)
        }
    }

    /// The one that is delivered last up to `at` by this delay, and before the run's end `until`, where there is one;
    /// of equal ones the one that came last. `None` exactly where none is.
    pub fn latest(&self, via: Delay, until: Option<i64>, at: Tier) -> Option<&Made>
        ensures { option_map (λ m. arrival via m.now) result
            ≡ latest (by at (arrivals via until self.now)) }
    {
        if self.rising {
            latest_rising(&self.entries, via, until, at)
        } else {
            latest_of_all(&self.entries, via, until, at)
        }
    }

    /// The one that was made last up to `at`, of equal ones the one that came last; `None` exactly where none was.
    pub fn latest_made(&self, at: Tier) -> Option<&Made>
        ensures { option_map (λ m. m.now) result ≡ latest (by at self.now) }
    {
        self.latest(Delay::of(Via::Plain), None, at)
    }

    /// Gives up outputs that no question at or after the mark needs: each is answered as before, by the making and by
    /// these delays, and few are left that have nothing later than the mark (`IsFew`).
    pub fn forget(&mut self, vias: &[Delay], until: &i64, mark: Tier)
        ensures answers { AnswersFrom vias.now until.now mark self.new self.old }
        ensures among { IsAmong self.new self.old }
        ensures few { IsFew vias.now until.now mark self.new }
    {
        if self.rising {
            forget_rising(&mut self.entries, vias, until, mark);
        } else {
            forget_spare(&mut self.entries, vias, until, mark);
            self.rising = is_short(&self.entries);
        }
    }

    /// The mark at which outputs have to be looked at again: where few have nothing later than `mark`, few have from
    /// there on up to the mark before that one. `None` where they stay few.
    pub fn next_mark(&self, vias: &[Delay], until: &i64, mark: Tier) -> Option<Tier>
        ensures { IsFew vias.now until.now mark self.now
            → StaysFew vias.now until.now mark result self.now }
    {
        if self.rising {
            next_rising(&self.entries, vias, until, mark)
        } else {
            Some(mark)
        }
    }
}

// There is one entry at most.
#[tactic(auto, using(crate::proofs::Ascending::short_ascends))]
fn is_short(entries: &VecDeque<Made>) -> bool
    ensures { result ≡ true → IsAscending entries.now.items }
{
    entries.len() < 2
}

// There is an entry at the place, and its time is later.
fn is_earlier(entries: &VecDeque<Made>, place: usize, at: Tier) -> bool
    ensures { result ≡ true → IsEarlierAt at entries.now.items place }
{
    place < entries.len() && at.time < entries[place].at().time
}

// Puts an entry before the one at the place.
fn insert_at(entries: &mut VecDeque<Made>, place: usize, new: Made) -> Result<(), Mem>
    requires { place ≤ length entries.old.items }
    ensures ok { OnOk result (entries.new.items ≡ insert entries.old.items place new) }
    ensures err { OnErr result (entries.new.items ≡ entries.old.items) }
{
    entries.insert(place, new)?;
    Ok(())
}

// Puts an entry behind all others; they rise on if it belongs there.
fn push_last(
    entries: &mut VecDeque<Made>,
    rising: &mut bool,
    place: usize,
    new: Made,
) -> Result<(), Mem>
    requires placed { PlacedFor new.at rising.old entries.old.items place }
    requires rising { rising.old ≡ true → IsAscending entries.old.items }
    ensures ok { OnOk result (entries.new.items ≡ entries.old.items ++ new ∷ []) }
    ensures rising { rising.new ≡ true → IsAscending entries.new.items }
    ensures err { OnErr result (entries.new.items ≡ entries.old.items) }
{
    let count = entries.len();
    entries.push_back(new)?;
    if place < count {
        *rising = false;
    }
    Ok(())
}

// Before which entry of rising ones a new one belongs.
fn place_for(entries: &VecDeque<Made>, rising: bool, at: Tier) -> usize
    requires { rising ≡ true → IsAscending entries.now.items }
    ensures { PlacedFor at rising entries.now.items result }
{
    if rising {
        made_by(entries, at)
    } else {
        entries.len()
    }
}

// How many of rising entries are made up to `at`.
fn made_by(entries: &VecDeque<Made>, at: Tier) -> usize
    requires { IsAscending entries.now.items }
    ensures within { result ≤ length entries.now.items }
    ensures cut { IsPartitionPoint (λ t. up_to t.at at ≡ true) (λ t. up_to t.at at
        ≡ false) entries.now.items result }
{
    match entries.back() {
        Some(last) if last.at().is_up_to(at) => entries.len(),
        _ => entries.partition_point(|entry| entry.at().is_up_to(at)),
    }
}

// Of rising entries the one that is delivered last up to `at`, of equal ones the one that came last.
fn latest_rising(
    entries: &VecDeque<Made>,
    via: Delay,
    until: Option<i64>,
    at: Tier,
) -> Option<&Made>
    requires { IsAscending entries.now.items }
    ensures { option_map (λ m. arrival via m.now) result
        ≡ latest (by at (arrivals via until entries.now.items)) }
{
    let count = passing(entries, via, until, at);
    if count == 0 {
        None
    } else {
        Some(&entries[count - 1])
    }
}

// How many of rising entries are delivered up to `at`: where what is overtaken was given up, most often the first
// alone.
fn passing(entries: &VecDeque<Made>, via: Delay, until: Option<i64>, at: Tier) -> usize
    requires { IsAscending entries.now.items }
    ensures within { result ≤ length entries.now.items }
    ensures cut { IsPartitionPoint (λ t. does_come via until at t.at
        ≡ true) (λ t. does_come via until at t.at ≡ false) entries.now.items result }
{
    if is_first_alone(entries, via, until, at) {
        1
    } else {
        passing_from_end(entries, via, until, at)
    }
}

// Of rising entries the first is delivered up to `at`, and the second is there and isn't.
fn is_first_alone(entries: &VecDeque<Made>, via: Delay, until: Option<i64>, at: Tier) -> bool
    requires { IsAscending entries.now.items }
    ensures some { result ≡ true → 1 ≤ length entries.now.items }
    ensures cut { result ≡ true → IsPartitionPoint (λ t. does_come via until at t.at
        ≡ true) (λ t. does_come via until at t.at ≡ false) entries.now.items 1 }
{
    if !is_second_to_come(entries, via, until, at) {
        return false;
    }
    comes_at(entries, 0, via, until, at)
}

// There is a second entry, and it isn't delivered up to `at`.
fn is_second_to_come(entries: &VecDeque<Made>, via: Delay, until: Option<i64>, at: Tier) -> bool
    ensures some { result ≡ true → 1 ≤ length entries.now.items }
    ensures late { result ≡ true → (d : Timed)
        → does_come via until at (get_or entries.now.items 1 d).at ≡ false }
{
    if entries.len() < 2 {
        return false;
    }
    !comes_at(entries, 1, via, until, at)
}

// How many of rising entries are delivered up to `at`, looked for from the end.
fn passing_from_end(entries: &VecDeque<Made>, via: Delay, until: Option<i64>, at: Tier) -> usize
    requires { IsAscending entries.now.items }
    ensures within { result ≤ length entries.now.items }
    ensures cut { IsPartitionPoint (λ t. does_come via until at t.at
        ≡ true) (λ t. does_come via until at t.at ≡ false) entries.now.items result }
{
    match entries.back() {
        Some(last) if is_delivered(last.at(), via, until, at) => entries.len(),
        _ => entries.partition_point(|entry| is_delivered(entry.at(), via, until, at)),
    }
}

// Of entries in any order the one that is delivered last up to `at`, of equal ones the one that came last.
fn latest_of_all(
    entries: &VecDeque<Made>,
    via: Delay,
    until: Option<i64>,
    at: Tier,
) -> Option<&Made>
    ensures { option_map (λ m. arrival via m.now) result
        ≡ latest (by at (arrivals via until entries.now.items)) }
{
    let mut best = None;
    for place in 0..entries.len() {
        best = weigh(best, &entries[place], via, until, at);
    }
    best
}

// The better one of the best so far and one more.
fn weigh<'a>(
    best: Option<&'a Made>,
    next: &'a Made,
    via: Delay,
    until: Option<i64>,
    at: Tier,
) -> Option<&'a Made>
    ensures { option_map (λ m. arrival via m.now) result
        ≡ weighed via until at (option_map (λ m. arrival via m.now) best.entry) next.now }
{
    if is_delivered(next.at(), via, until, at) {
        later(best, next, via)
    } else {
        best
    }
}

// The later of two; of equal times the second.
fn later<'a>(best: Option<&'a Made>, next: &'a Made, via: Delay) -> Option<&'a Made>
    ensures { option_map (λ m. arrival via m.now) result
        ≡ later (option_map (λ m. arrival via m.now) best.entry) (arrival via next.now) }
{
    match best {
        Some(entry)
            if !entry
                .at()
                .after(via.via())
                .is_up_to(next.at().after(via.via())) => Some(entry),
        _ => Some(next),
    }
}

// Drops each entry whose next one overtakes it. Of those that come over the same delays before the run's end the settled
// ones stand first: at one that isn't, the walk goes on behind all of them.
fn forget_rising(entries: &mut VecDeque<Made>, vias: &[Delay], until: &i64, mark: Tier)
    requires { IsAscending entries.old.items }
    ensures answers { AnswersFrom vias.now until.now mark entries.new.items entries.old.items }
    ensures among { IsAmong entries.new.items entries.old.items }
    ensures few { IsFew vias.now until.now mark entries.new.items }
    ensures rising { IsAscending entries.new.items }
{
    let mut place = 0;
    while goes_on(entries, place, mark) {
        if is_overtaken_at(entries, place, vias, until, mark) {
            drop_at(entries, place);
        } else {
            place = behind(entries, place, vias, until, mark);
        }
    }
}

// The entry at the place is overtaken by its next one.
fn is_overtaken_at(
    entries: &VecDeque<Made>,
    place: usize,
    vias: &[Delay],
    until: &i64,
    mark: Tier,
) -> bool
    requires { place + 1 < length entries.now.items }
    ensures { (d : Timed) → result ≡ is_overtaken vias.now until.now mark
        (get_or entries.now.items place d).at (get_or entries.now.items (place + 1) d).at }
{
    is_overtaken(
        entries[place].at(),
        entries[place + 1].at(),
        vias,
        *until,
        mark,
    )
}

// There is an entry behind the one at the place, and it is made by the mark.
fn goes_on(entries: &VecDeque<Made>, place: usize, mark: Tier) -> bool
    requires { place ≤ length entries.now.items }
    ensures next { result ≡ true → place + 1 < length entries.now.items }
    ensures rest { result ≡ false → IsRest mark entries.now.items place }
{
    if place + 1 < entries.len() {
        entries[place + 1].at().is_up_to(mark)
    } else {
        false
    }
}

// The place behind a settled entry; behind another, the one behind all that come over the same delays.
fn behind(entries: &VecDeque<Made>, place: usize, vias: &[Delay], until: &i64, mark: Tier) -> usize
    requires up { IsAscending entries.now.items }
    requires there { place < length entries.now.items }
    ensures { IsBehind vias.now until.now mark entries.now.items place result }
{
    if is_settled_at(entries, place, vias, until, mark) {
        place + 1
    } else {
        coming_with(entries, &entries[place], vias, *until)
    }
}

// How many of rising entries come before the run's end by each of these delays by which this one does.
fn coming_with(entries: &VecDeque<Made>, made: &Made, vias: &[Delay], until: i64) -> usize
    requires { IsAscending entries.now.items }
    ensures within { result ≤ length entries.now.items }
    ensures cut { IsPartitionPoint (λ t. comes_with vias.now until made.now.at t.at
        ≡ true) (λ t. comes_with vias.now until made.now.at t.at
        ≡ false) entries.now.items result }
{
    let at = made.at();
    match entries.back() {
        Some(last) if comes_with(at, last.at(), vias, until) => entries.len(),
        _ => entries.partition_point(|entry| comes_with(made.at(), entry.at(), vias, until)),
    }
}

// The mark at which rising entries have to be looked at again, if there is one: the least at which one more is settled.
fn next_rising(entries: &VecDeque<Made>, vias: &[Delay], until: &i64, mark: Tier) -> Option<Tier>
    requires { IsAscending entries.now.items }
    ensures { IsFew vias.now until.now mark entries.now.items
        → StaysFew vias.now until.now mark result entries.now.items }
{
    let mut next = None;
    let mut place = 0;
    while place < entries.len() {
        next = sooner_at(next, entries, place, vias, until, mark);
        place = behind(entries, place, vias, until, mark);
    }
    next
}

// The earlier of a mark and the one at which the entry at the place is settled, if it isn't yet.
fn sooner_at(
    next: Option<Tier>,
    entries: &VecDeque<Made>,
    place: usize,
    vias: &[Delay],
    until: &i64,
    mark: Tier,
) -> Option<Tier>
    requires { place < length entries.now.items }
    ensures before { (m : Tier) → is_due result m ≡ false → is_due next m ≡ false }
    ensures settled { (m : Tier) → (d : Timed) → is_due result m ≡ false
        → is_settled vias.now until.now m (get_or entries.now.items place d).at ≡ true
        → is_settled vias.now until.now mark (get_or entries.now.items place d).at ≡ true }
{
    if is_settled_at(entries, place, vias, until, mark) {
        next
    } else {
        Some(sooner(next, settling(entries[place].at(), vias, *until)))
    }
}

// The earlier of two times, the first of which may be missing.
fn sooner(first: Option<Tier>, second: Tier) -> Tier
    ensures before { (m : Tier) → up_to result m ≡ false → is_due first m ≡ false }
    ensures settled { (m : Tier) → up_to result m ≡ false → up_to second m ≡ false }
{
    match first {
        Some(time) if time.is_up_to(second) => time,
        _ => second,
    }
}

// Drops each entry that is settled and is the newest one for no question at the mark; the entries are in any order.
fn forget_spare(entries: &mut VecDeque<Made>, vias: &[Delay], until: &i64, mark: Tier)
    ensures answers { AnswersFrom vias.now until.now mark entries.new.items entries.old.items }
    ensures among { IsAmong entries.new.items entries.old.items }
    ensures few { IsFew vias.now until.now mark entries.new.items }
{
    let mut place = 0;
    while place < entries.len() {
        if is_spare(entries, place, vias, until, mark) {
            drop_at(entries, place);
        } else {
            place += 1;
        }
    }
}

// The entry at the place is settled, and is the newest one for no question at the mark.
fn is_spare(entries: &VecDeque<Made>, place: usize, vias: &[Delay], until: &i64, mark: Tier) -> bool
    requires { place < length entries.now.items }
    ensures spare { result ≡ true → IsSpare vias.now until.now mark entries.now.items place }
    ensures needed { result ≡ false → IsNeeded vias.now until.now mark entries.now.items place }
{
    if !is_settled_at(entries, place, vias, until, mark) {
        return false;
    }
    if is_newest(entries, place, Delay::of(Via::Plain), None, mark) {
        return false;
    }
    !is_newest_by(entries, place, vias, until, mark)
}

// The entry at the place is settled.
fn is_settled_at(
    entries: &VecDeque<Made>,
    place: usize,
    vias: &[Delay],
    until: &i64,
    mark: Tier,
) -> bool
    requires { place < length entries.now.items }
    ensures { (d : Timed)
        → result ≡ is_settled vias.now until.now mark (get_or entries.now.items place d).at }
{
    is_settled(entries[place].at(), vias, *until, mark)
}

// By one of these delays the entry at the place is the newest one.
fn is_newest_by(
    entries: &VecDeque<Made>,
    place: usize,
    vias: &[Delay],
    until: &i64,
    mark: Tier,
) -> bool
    requires { place < length entries.now.items }
    ensures newest { result ≡ true → IsNewestByOf vias.now until.now mark entries.now.items place }
    ensures outdone { result ≡ false → (v : Via) → IsIn v vias.now
        → IsOutdoneAt v (Some until.now) mark entries.now.items place }
{
    for via in vias {
        if is_newest(entries, place, *via, Some(*until), mark) {
            return true;
        }
    }
    false
}

// The entry at the place is the one that is delivered last up to the mark, of equal ones the one that came last.
fn is_newest(
    entries: &VecDeque<Made>,
    place: usize,
    via: Delay,
    until: Option<i64>,
    mark: Tier,
) -> bool
    requires { place < length entries.now.items }
    ensures newest { result ≡ true → IsNewestAt via until mark entries.now.items place }
    ensures outdone { result ≡ false → IsOutdoneAt via until mark entries.now.items place }
{
    if !comes_at(entries, place, via, until, mark) {
        return false;
    }
    for other in 0..entries.len() {
        if is_outdone_at(entries, place, other, via, until, mark) {
            return false;
        }
    }
    true
}

// The entry at the place is delivered up to the mark.
fn comes_at(
    entries: &VecDeque<Made>,
    place: usize,
    via: Delay,
    until: Option<i64>,
    mark: Tier,
) -> bool
    requires { place < length entries.now.items }
    ensures { (d : Timed)
        → result ≡ does_come via until mark (get_or entries.now.items place d).at }
{
    is_delivered(entries[place].at(), via, until, mark)
}

// The entry at the other place is delivered up to the mark and counts rather than the one at the place.
fn is_outdone_at(
    entries: &VecDeque<Made>,
    place: usize,
    other: usize,
    via: Delay,
    until: Option<i64>,
    mark: Tier,
) -> bool
    requires own { place < length entries.now.items }
    requires other { other < length entries.now.items }
    ensures { (d : Timed)
        → result ≡ is_outdone via until mark (get_or entries.now.items place d).at
        (get_or entries.now.items other d).at place other }
{
    is_outdone(
        entries[place].at(),
        entries[other].at(),
        place,
        other,
        via,
        until,
        mark,
    )
}

// Of two entries, which stand at these places, the second is delivered up to the mark and counts rather than the first.
fn is_outdone(
    own: Tier,
    other: Tier,
    place: usize,
    other_place: usize,
    via: Delay,
    until: Option<i64>,
    mark: Tier,
) -> bool
    requires early { pos 0 ≤ℤ own.time }
    requires late { own.time ≤ℤ latest_time }
    requires low { own.tier ≤ greatest_tier }
    requires other_early { pos 0 ≤ℤ other.time }
    requires other_late { other.time ≤ℤ latest_time }
    requires other_low { other.tier ≤ greatest_tier }
    ensures { result ≡ is_outdone via until mark own other place other_place }
{
    if is_delivered(other, via, until, mark) {
        let own = own.after(via.via());
        let other = other.after(via.via());
        if other_place < place {
            !other.is_up_to(own)
        } else {
            place < other_place && own.is_up_to(other)
        }
    } else {
        false
    }
}

// Drops the entry at the place.
fn drop_at(entries: &mut VecDeque<Made>, place: usize)
    requires { place < length entries.old.items }
    ensures items { entries.new.items ≡ remove entries.old.items place }
    ensures count { length entries.new.items + 1 ≡ length entries.old.items }
{
    match entries.remove(place) {
        Some(_) => {}
        None => {}
    }
}
