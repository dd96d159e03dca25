//! The content of answers to `get_data`: values of outputs.
ghost use Rattle.std.specs.Prelude.{◌≡◌, ℕ, ◌<◌, ◌++◌, true, codes, flat_map, length, IfOk, OnOk, Some, option_map};
ghost use Rattle.mk_base.specs.Texts.{object_text};
ghost use Rattle.mk_base.specs.Tiers.{IsUpTo};
ghost use Rattle.mk_base.specs.Trees.{items_in, text_in};
ghost use Rattle.mk_plan.specs.Asks.{content_text, gives_attr, knows};
ghost use Rattle.mk_plan.specs.Deliveries.{Supply};
ghost use Rattle.mk_plan.specs.Inputs.{value_at};
ghost use Rattle.mk_plan_names.specs.Names.{AreNamesOf};
ghost use Rattle.mk_buffers.specs.Standing.{StandFor, least_mark};
ghost use Rattle.mk_async.specs.Asked.{get_in};
ghost use Rattle.mk_async.specs.inner.Content.{listed, member_text, put_attr, put_named, values_by, values_of, want_text, wants_text, IsNamed, AreNamed, AreRising, IsContent, AreContents};
ghost use Rattle.mk_async.specs.Forms.{is_such};
ghost use Rattle.mk_async.specs.inner.Known.{gives_each, knows_want, knows_wants};

use crate::known::entity_of;
use mk_base::{Datum, Json, List, Mem, Members, Text, Tier, put};
use mk_buffers::Buffers;
use mk_json::put_text;
use mk_plan::Plan;
use mk_plan_names::Names;
use std::alloc::Global;

/// The content of the answer to a `get_data` that was judged, asked in a step at `at`: under each entity's full id an
/// object of the wanted attributes, each with the value that was made last up to `at`. An attribute without a value is
/// left out. What it costs grows with the request, with the values, and with the attributes that connections take from
/// the entities that it names. Fails for want of memory alone.
pub fn data_content(
    alloc: Global,
    plan: &Plan,
    names: &Names,
    buffers: &Buffers,
    at: Tier,
    wants: &Members<Json>,
) -> Result<Datum, Mem>
    requires names { AreNamesOf plan.now names.now }
    requires known { (s : ℕ) × (option_map (knows plan.now s) (get_in wants.now) ≡ Some true) }
    requires stands { (S : Supply) × StandFor plan.now buffers.now S }
    requires late { 0 < length wants.now → IsUpTo (least_mark buffers.now) at }
    ensures { (S : Supply) → StandFor plan.now buffers.now S
        → IfOk result (λ text. option_map (content_text plan.now (value_at S at)) (get_in wants.now)
        ≡ Some text) }
{
    let mut text = Vec::new(alloc);
    put_wants(alloc, plan, names, buffers, at, &mut text, wants.entries())?;
    Ok(Datum::of(text))
}

// Appends an object of what is wanted, entity by entity.
fn put_wants(
    alloc: Global,
    plan: &Plan,
    names: &Names,
    buffers: &Buffers,
    at: Tier,
    text: &mut Vec<u8>,
    wants: &[(Text, Json)],
) -> Result<(), Mem>
    requires names { AreNamesOf plan.now names.now }
    requires known { knows_wants plan.now wants.now ≡ true }
    requires late { 0 < length wants.now → IsUpTo (least_mark buffers.now) at }
    ensures written { (S : Supply) → StandFor plan.now buffers.now S
        → OnOk result (text.new.items ≡ text.old.items
        ++ wants_text plan.now (value_at S at) wants.now) }
    ensures content { (S : Supply) → StandFor plan.now buffers.now S
        → OnOk result (AreContents plan.now (value_at S at) wants.now) }
{
    match wants {
        [] => put(text, "{}")?,
        [first, rest @ ..] => {
            put(text, "{")?;
            put_want(alloc, plan, names, buffers, at, text, &first.0, &first.1)?;
            put_more_wants(alloc, plan, names, buffers, at, text, rest)?;
            put(text, "}")?;
        }
    }
    Ok(())
}

// Appends what is wanted, entity by entity, each behind a comma.
fn put_more_wants(
    alloc: Global,
    plan: &Plan,
    names: &Names,
    buffers: &Buffers,
    at: Tier,
    text: &mut Vec<u8>,
    wants: &[(Text, Json)],
) -> Result<(), Mem>
    requires names { AreNamesOf plan.now names.now }
    requires known { knows_wants plan.now wants.now ≡ true }
    requires late { IsUpTo (least_mark buffers.now) at }
    ensures written { (S : Supply) → StandFor plan.now buffers.now S
        → OnOk result (text.new.items ≡ text.old.items
        ++ flat_map (λ m. codes "," ++ want_text plan.now (value_at S at) m) wants.now) }
    ensures content { (S : Supply) → StandFor plan.now buffers.now S
        → OnOk result (AreContents plan.now (value_at S at) wants.now) }
{
    for want in wants {
        put(text, ",")?;
        put_want(alloc, plan, names, buffers, at, text, &want.0, &want.1)?;
    }
    Ok(())
}

// Appends an entity's full id and an object of its values.
fn put_want(
    alloc: Global,
    plan: &Plan,
    names: &Names,
    buffers: &Buffers,
    at: Tier,
    text: &mut Vec<u8>,
    id: &Text,
    tree: &Json,
) -> Result<(), Mem>
    requires names { AreNamesOf plan.now names.now }
    requires known { knows_want plan.now id.now tree.now ≡ true }
    requires late { IsUpTo (least_mark buffers.now) at }
    ensures written { (S : Supply) → StandFor plan.now buffers.now S
        → OnOk result (text.new.items ≡ text.old.items
        ++ want_text plan.now (value_at S at) (id.now, tree.now)) }
    ensures content { (S : Supply) → StandFor plan.now buffers.now S
        → OnOk result (IsContent id.now (values_of plan.now (value_at S at) id.now tree.now)) }
{
    put_text(alloc, text, id)?;
    put(text, ":")?;
    put_values_of(alloc, plan, names, buffers, at, text, id, tree)?;
    Ok(())
}

// Appends an object of an entity's values.
fn put_values_of(
    alloc: Global,
    plan: &Plan,
    names: &Names,
    buffers: &Buffers,
    at: Tier,
    text: &mut Vec<u8>,
    id: &Text,
    tree: &Json,
) -> Result<(), Mem>
    requires names { AreNamesOf plan.now names.now }
    requires known { knows_want plan.now id.now tree.now ≡ true }
    requires late { IsUpTo (least_mark buffers.now) at }
    ensures written { (S : Supply) → StandFor plan.now buffers.now S
        → OnOk result (text.new.items ≡ text.old.items
        ++ object_text (values_of plan.now (value_at S at) id.now tree.now)) }
    ensures content { (S : Supply) → StandFor plan.now buffers.now S
        → OnOk result (AreRising (values_of plan.now (value_at S at) id.now tree.now)) }
{
    let values = values_of(alloc, plan, names, buffers, at, id, tree)?;
    put_values(alloc, text, values.entries())?;
    Ok(())
}

// The values of the attributes that are wanted of the entity of that full id. There is one, since the
// request was judged.
fn values_of(
    alloc: Global,
    plan: &Plan,
    names: &Names,
    buffers: &Buffers,
    at: Tier,
    id: &Text,
    tree: &Json,
) -> Result<Members<Datum>, Mem>
    requires names { AreNamesOf plan.now names.now }
    requires known { knows_want plan.now id.now tree.now ≡ true }
    requires late { IsUpTo (least_mark buffers.now) at }
    ensures { (S : Supply) → StandFor plan.now buffers.now S
        → IfOk result (λ values. values ≡ values_of plan.now (value_at S at) id.now tree.now) }
{
    match entity_of(plan, names, id) {
        Some(entity) => listed(alloc, plan, buffers, at, entity, tree),
        None => unreachable!(),
    }
}

// The values of an entity's attributes, which are listed: `gives_each` has passed the list.
fn listed(
    alloc: Global,
    plan: &Plan,
    buffers: &Buffers,
    at: Tier,
    entity: u32,
    tree: &Json,
) -> Result<Members<Datum>, Mem>
    requires given { is_such (gives_each plan.now entity) (items_in tree.now) ≡ true }
    requires late { IsUpTo (least_mark buffers.now) at }
    ensures { (S : Supply) → StandFor plan.now buffers.now S
        → IfOk result (λ values. values ≡ listed (value_at S at) entity (items_in tree.now)) }
{
    match tree.as_list() {
        Some(attrs) => values_by(alloc, plan, buffers, at, entity, attrs),
        None => unreachable!(),
    }
}

fn values_by(
    alloc: Global,
    plan: &Plan,
    buffers: &Buffers,
    at: Tier,
    entity: u32,
    attrs: &List<Json>,
) -> Result<Members<Datum>, Mem>
    requires given { gives_each plan.now entity attrs.now ≡ true }
    requires late { IsUpTo (least_mark buffers.now) at }
    ensures { (S : Supply) → StandFor plan.now buffers.now S
        → IfOk result (λ values. values ≡ values_by (value_at S at) entity attrs.now) }
{
    let mut values = Members::new(alloc);
    for attr in attrs.as_slice() {
        put_attr(plan, buffers, at, entity, &mut values, attr)?;
    }
    Ok(values)
}

// Puts in the value of an attribute, which is a text, since `gives` has passed it.
fn put_attr(
    plan: &Plan,
    buffers: &Buffers,
    at: Tier,
    entity: u32,
    values: &mut Members<Datum>,
    attr: &Json,
) -> Result<(), Mem>
    requires given { is_such (gives_attr plan.now entity) (text_in attr.now) ≡ true }
    requires late { IsUpTo (least_mark buffers.now) at }
    ensures { (S : Supply) → StandFor plan.now buffers.now S
        → OnOk result (values.new ≡ put_attr (value_at S at) entity values.old attr.now) }
{
    match attr.as_text() {
        Some(name) => put_value(plan, buffers, at, entity, values, name),
        None => unreachable!(),
    }
}

fn put_value(
    plan: &Plan,
    buffers: &Buffers,
    at: Tier,
    entity: u32,
    values: &mut Members<Datum>,
    attr: &Text,
) -> Result<(), Mem>
    requires given { gives_attr plan.now entity attr.now ≡ true }
    requires late { IsUpTo (least_mark buffers.now) at }
    ensures { (S : Supply) → StandFor plan.now buffers.now S
        → OnOk result (values.new ≡ put_named (value_at S at) entity values.old (Some attr.now)) }
{
    match buffers.value_at(entity, attr, at) {
        Some(value) => values.put(attr.copy()?, value.copy()?),
        None => Ok(()),
    }
}

// Appends an object of values.
fn put_values(alloc: Global, text: &mut Vec<u8>, values: &[(Text, Datum)]) -> Result<(), Mem>
    ensures written { OnOk result (text.new.items ≡ text.old.items ++ object_text values.now) }
    ensures named { OnOk result (AreNamed values.now) }
{
    match values {
        [] => put(text, "{}")?,
        [first, rest @ ..] => {
            put(text, "{")?;
            put_member(alloc, text, &first.0, &first.1)?;
            put_more_values(alloc, text, rest)?;
            put(text, "}")?;
        }
    }
    Ok(())
}

// Appends values with their names, each behind a comma.
fn put_more_values(alloc: Global, text: &mut Vec<u8>, values: &[(Text, Datum)]) -> Result<(), Mem>
    ensures written { OnOk result (text.new.items ≡ text.old.items
        ++ flat_map (λ m. codes "," ++ member_text m.0 m.1) values.now) }
    ensures named { OnOk result (AreNamed values.now) }
{
    for value in values {
        put(text, ",")?;
        put_member(alloc, text, &value.0, &value.1)?;
    }
    Ok(())
}

// Appends a value with its name.
fn put_member(alloc: Global, text: &mut Vec<u8>, name: &Text, value: &Datum) -> Result<(), Mem>
    ensures written { OnOk result (text.new.items ≡ text.old.items
        ++ member_text name.now value.now) }
    ensures named { OnOk result (IsNamed name.now value.now) }
{
    put_text(alloc, text, name)?;
    put(text, ":")?;
    text.extend_from_slice(value.bytes())?;
    Ok(())
}
