//! The values that requests set in a simulator, and the giving up of those that no question can reach any more.
ghost use Rattle.std.specs.Prelude.{◌≡◌, ◌+◌, ◌<◌, ◌≤◌, ◌&&◌, [], false, length, option_map, option_to_list, IfOk, OnOk, OnErr};
ghost use Rattle.std.specs.List.Sorted.{IsStrictlySortedBy, IsBinarySearchResult, IsSearchInRange};
ghost use Rattle.mk_base.specs.Tiers.{up_to};
ghost use Rattle.mk_plan.specs.Inputs.{input_order, put_all};
ghost use Rattle.mk_buffers_log.specs.Logs.{within};
ghost use Rattle.std.specs.List.{remove};
ghost use Rattle.mk_buffers.specs.Slots.{SameLast, last_within};
ghost use Rattle.mk_buffers.specs.inner.Slots.{HasInserted, HasTakenAt, TakesLast, slot_order};

use crate::sorted::{input_named, or_texts, put_input};
use mk_base::{Datum, List, Mem, Text, Tier};
use mk_buffers_log::is_since;
use mk_plan::Input;
use std::alloc::Global;
use std::cmp::Ordering;
use std::collections::VecDeque;
use std::marker::Model;

// A set value, with the tiered time from which on it counts.
#[derive(Drop)]
pub struct Setting {
    at: Tier,
    value: Datum,
}

impl Model for Setting {
    ghost use Rattle.mk_plan.specs.Deliveries.{Timed};

    ghost Value = { Timed };

    ghost view = { λ m. record { at = m.at; value = m.value } };
}

impl Setting {
    pub fn new(at: Tier, value: Datum) -> Setting
        ensures { result ≡ record { at = at; value = value } }
    {
        Setting { at, value }
    }

    fn at(&self) -> Tier
        ensures { result ≡ self.now.at }
    {
        self.at
    }

    fn value(&self) -> &Datum
        ensures { result.now ≡ self.now.value }
    {
        &self.value
    }
}

// Values that are set at one place, in the order in which they came.
#[derive(Drop)]
pub struct Settings {
    kept: VecDeque<Setting>,
}

impl Model for Settings {
    ghost use Rattle.std.specs.Prelude.{List};
    ghost use Rattle.mk_plan.specs.Deliveries.{Timed};

    ghost Value = { List Timed };

    ghost view = { λ l. l.kept.items };
}

impl Settings {
    fn new(alloc: Global) -> Settings
        ensures { result ≡ [] }
    {
        Settings {
            kept: VecDeque::new(alloc),
        }
    }

    // Takes one more value, and gives up those that it lets no question at or after the mark reach.
    fn take_in(&mut self, new: Setting, mark: Tier) -> Result<(), Mem>
        ensures ok { OnOk result (TakesLast mark new self.old self.new) }
        ensures err { OnErr result (self.new ≡ self.old) }
    {
        self.kept.push_back(new)?;
        forget(&mut self.kept, mark);
        Ok(())
    }

    // The last value that comes after the previous step and up to `at`.
    fn last_within(&self, previous: Option<Tier>, at: Tier) -> Option<&Setting>
        ensures { option_map (λ m. m.now) result ≡ last_within previous at self.now }
    {
        let mut place = self.kept.len();
        while place > 0 {
            place -= 1;
            let setting = &self.kept[place];
            if counts(setting, previous, at) {
                return Some(setting);
            }
        }
        None
    }
}

// The value comes after the previous step and up to `at`.
fn counts(setting: &Setting, previous: Option<Tier>, at: Tier) -> bool
    ensures { result ≡ within false previous at setting.now }
{
    setting.at().is_up_to(at) && is_since(previous, setting.at())
}

// Drops the first values as long as the next one stands for them at or after the mark.
fn forget(values: &mut VecDeque<Setting>, mark: Tier)
    ensures { SameLast mark values.new.items values.old.items }
{
    while values.len() > 1 && is_replaced(&values[0], &values[1], mark) {
        drop_first(values);
    }
}

// The second value stands for the first at or after the mark.
fn is_replaced(first: &Setting, second: &Setting, mark: Tier) -> bool
    ensures { result ≡ (up_to second.now.at mark && up_to first.now.at second.now.at) }
{
    second.at().is_up_to(mark) && first.at().is_up_to(second.at())
}

// Drops the first value.
fn drop_first(values: &mut VecDeque<Setting>)
    requires { 0 < length values.old.items }
    ensures items { values.new.items ≡ remove values.old.items 0 }
    ensures count { length values.new.items + 1 ≡ length values.old.items }
{
    match values.remove(0) {
        Some(_) => {}
        None => {}
    }
}

// The values that are set under one source at one attribute of an entity.
#[derive(Drop)]
pub struct Slot {
    pub eid: Text,
    pub attr: Text,
    pub source: Text,
    pub values: Settings,
}

impl Slot {
    ghost use Rattle.mk_buffers.specs.inner.Slots.{set_input};

    pub fn new(alloc: Global, eid: Text, attr: Text, source: Text) -> Slot
        ensures { result ≡ record { eid = eid; attr = attr; source = source; values = [] } }
    {
        Slot {
            eid,
            attr,
            source,
            values: Settings::new(alloc),
        }
    }

    // The input that the slot gives a step.
    fn input(&self, previous: Option<Tier>, at: Tier) -> Result<Option<Input>, Mem>
        ensures { IfOk result (λ o. o ≡ set_input previous at self.now) }
    {
        match self.values.last_within(previous, at) {
            Some(setting) => Ok(Some(input_named(
                &self.eid,
                &self.attr,
                &self.source,
                setting.value(),
            )?)),
            None => Ok(None),
        }
    }

    // Puts what the slot gives a step among its inputs.
    fn add_input(
        &self,
        previous: Option<Tier>,
        at: Tier,
        inputs: &mut List<Input>,
    ) -> Result<(), Mem>
        ensures put { IsStrictlySortedBy input_order inputs.old
            → OnOk result (inputs.new
            ≡ put_all (option_to_list (set_input previous at self.now)) inputs.old) }
        ensures sorted { IsStrictlySortedBy input_order inputs.old
            → OnOk result (IsStrictlySortedBy input_order inputs.new) }
    {
        match self.input(previous, at)? {
            Some(input) => {
                put_input(inputs, input)?;
                Ok(())
            }
            None => Ok(()),
        }
    }
}

// The values that are set in one simulator, a slot for each eid, attribute and source, in their order.
#[derive(Drop)]
pub struct Sets {
    slots: Vec<Slot>,
}

impl Model for Sets {
    ghost use Rattle.std.specs.Prelude.{List};
    ghost use Rattle.std.specs.List.Sorted.{IsStrictlySortedBy};
    ghost use Rattle.mk_buffers.specs.declared.sets.Slot.{Slot};
    ghost use Rattle.mk_buffers.specs.inner.Slots.{slot_order};

    ghost Value = { List Slot };

    ghost view = { λ s. s.slots.items };

    ghost invariant = { λ s. IsStrictlySortedBy slot_order s.slots.items };
}

impl Sets {
    ghost use Rattle.mk_buffers.specs.Slots.{input_in};
    ghost use Rattle.mk_buffers.specs.inner.Slots.{HaveTaken, set_inputs};

    pub fn new(alloc: Global) -> Sets
        ensures { result ≡ [] }
    {
        Sets {
            slots: Vec::new(alloc),
        }
    }

    // Takes one more value in the slot of these names, and gives up those that it lets no question at or after the mark
    // reach.
    pub fn take_in(&mut self, fresh: Slot, new: Setting, mark: Tier) -> Result<(), Mem>
        requires { fresh.values ≡ [] }
        ensures ok { OnOk result (HaveTaken mark (input_in fresh []) new self.old self.new) }
        ensures err { OnErr result (self.new ≡ self.old) }
    {
        match place_of(self.slots.as_slice(), &fresh) {
            Ok(place) => set_at(&mut self.slots, place, new, mark),
            Err(place) => insert_at(&mut self.slots, place, fresh, new, mark),
        }
    }

    // Puts what the slots give a step among its inputs.
    pub fn add_inputs(
        &self,
        previous: Option<Tier>,
        at: Tier,
        inputs: &mut List<Input>,
    ) -> Result<(), Mem>
        ensures { IsStrictlySortedBy input_order inputs.old
            → OnOk result (inputs.new ≡ put_all (set_inputs self.now previous at) inputs.old) }
    {
        for slot in &self.slots {
            slot.add_input(previous, at, inputs)?;
        }
        Ok(())
    }
}

// Takes one more value in the slot at the place.
fn set_at(slots: &mut Vec<Slot>, place: usize, new: Setting, mark: Tier) -> Result<(), Mem>
    requires { place < length slots.old.items }
    ensures ok { OnOk result (HasTakenAt mark new place slots.old.items slots.new.items) }
    ensures err { OnErr result (slots.new.items ≡ slots.old.items) }
{
    slots[place].values.take_in(new, mark)?;
    Ok(())
}

// Puts a new slot before the place, with one value.
fn insert_at(
    slots: &mut Vec<Slot>,
    place: usize,
    fresh: Slot,
    new: Setting,
    mark: Tier,
) -> Result<(), Mem>
    requires { place ≤ length slots.old.items }
    ensures ok { OnOk result
        (HasInserted mark new place fresh slots.old.items slots.new.items) }
    ensures err { OnErr result (slots.new.items ≡ slots.old.items) }
{
    let mut fresh = fresh;
    fresh.values.take_in(new, mark)?;
    slots.insert(place, fresh)?;
    Ok(())
}

// Where the slot of these names stands, or else the place before which it belongs.
fn place_of(slots: &[Slot], fresh: &Slot) -> Result<usize, usize>
    ensures within { IsSearchInRange result (length slots.now) }
    ensures found { IsBinarySearchResult (λ y. slot_order y fresh.now) slots.now result }
{
    slots.binary_search_by(|slot| slot_order(slot, fresh))
}

// By eid, then attribute, then source.
fn slot_order(first: &Slot, second: &Slot) -> Ordering
    ensures { result ≡ slot_order first.now second.now }
{
    let eids = first.eid.bytes().cmp(second.eid.bytes());
    let attrs = or_texts(eids, &first.attr, &second.attr);
    or_texts(attrs, &first.source, &second.source)
}
