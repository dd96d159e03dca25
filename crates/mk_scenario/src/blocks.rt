//! The `connect` tables.
ghost use Rattle.std.specs.Prelude.{◌≡◌, ◌||◌, ◌==◌, [], ℕ, List, map, not, length, option_map, codes, IfOk, IfErr, Ok};
ghost use Rattle.std.specs.List.{find};
ghost use Rattle.mk_base.specs.declared.json.Json.{Json};
ghost use Rattle.mk_base.specs.Trees.{member};
ghost use Rattle.mk_scenario_keys.specs.Keys as keys;
ghost use Rattle.mk_scenario_keys.specs.Tests.{IsFaultOf, each_at, found, key_in, item_in};
ghost use Rattle.mk_scenario_keys.specs.declared.fault.ScenarioFault.TheVariants as faults;
ghost use Rattle.mk_scenario.specs.Blocks as blocks;
ghost use Rattle.mk_scenario.specs.Blocks.{source_names};
ghost use Rattle.mk_scenario.specs.References.{group_ids, place_of};
ghost use Rattle.mk_scenario.specs.Scenarios.{ids_of};
ghost use Rattle.mk_scenario.specs.inner.Blocks.{block_of, initial_fits, is_delayed, said_between};
ghost use Rattle.mk_base.specs.Lists.{is_among};

use crate::groups::ids_of;
use crate::names::Names;
use crate::parts::{AttrPair, Block, Group, Place, SimPart};
use crate::paths::table_path;
use crate::references::{place_of, size_of};
use mk_base::{Json, List, Mem, Members, Text, Via};
use mk_scenario_keys::{
    ScenarioFault, Table, first_unknown, item_in, items, key_in, required_text, truth_or_false,
    values_or_none, width_or_none,
};
use std::alloc::Global;

// The manner in which a `connect` table says that the connection delivers; the width is that of its time shift.
#[derive(Clone, Copy)]
pub struct Manner {
    width: Option<u32>,
    weak: bool,
    asks: bool,
}

// What a `connect` table says.
#[derive(Drop)]
pub struct BlockSaid {
    from: Text,
    to: Text,
    attrs: List<AttrPair>,
    manner: Manner,
    initial: Json,
}

// The two sides of a connection.
#[derive(Drop)]
pub struct Ends {
    from: Place,
    to: Place,
}

// The blocks of these tables.
pub fn blocks_of(
    alloc: Global,
    sims: &List<SimPart>,
    groups: &List<Group>,
    tables: &[Json],
) -> Result<List<Block>, ScenarioFault>
    ensures ok { IfOk result
        (λ found. each_at (blocks.block_in (ids_of sims.now) groups.now) tables.now ≡ Ok found) }
    ensures refused { IfErr result
        (λ e. IsFaultOf (each_at (blocks.block_in (ids_of sims.now) groups.now) tables.now) e) }
{
    let sims = ids_of(alloc, sims.as_slice())?;
    let groups = groups.as_slice();
    let Ok(ids) = group_ids(alloc, groups) else {
        drop(sims);
        return Err(ScenarioFault::Mem);
    };
    let blocks = blocks_among(alloc, &sims, &ids, groups, tables);
    drop(sims);
    drop(ids);
    blocks
}

// The ids of the groups.
fn group_ids(alloc: Global, groups: &[Group]) -> Result<Names, Mem>
    ensures { IfOk result (λ ids. ids ≡ group_ids groups.now) }
{
    let mut ids = Names::new(alloc);
    for group in groups {
        ids = ids.with(alloc, &group.id)?;
    }
    Ok(ids)
}

// The blocks of these tables, among simulators of these ids and groups, of those ids.
fn blocks_among(
    alloc: Global,
    sims: &Names,
    ids: &Names,
    groups: &[Group],
    tables: &[Json],
) -> Result<List<Block>, ScenarioFault>
    requires { ids.now ≡ group_ids groups.now }
    ensures ok { IfOk result (λ found. each_at (blocks.block_in sims.now groups.now) tables.now
        ≡ Ok found) }
    ensures refused { IfErr result
        (λ e. IsFaultOf (each_at (blocks.block_in sims.now groups.now) tables.now) e) }
{
    let mut found = List::new(alloc);
    for (i, table) in tables.iter().enumerate() {
        found.push(block_in(alloc, sims, ids, groups, i, table)?)?;
    }
    Ok(found)
}

// The block of the table at place i.
fn block_in(
    alloc: Global,
    sims: &Names,
    ids: &Names,
    groups: &[Group],
    i: usize,
    table: &Json,
) -> Result<Block, ScenarioFault>
    requires { ids.now ≡ group_ids groups.now }
    ensures ok { IfOk result (λ block. blocks.block_in sims.now groups.now i table.now ≡ Ok block) }
    ensures refused { IfErr result
        (λ e. IsFaultOf (blocks.block_in sims.now groups.now i table.now) e) }
{
    let path = table_path(alloc, "connect", i)?;
    let block = block_at(alloc, sims, ids, groups, &path, table);
    drop(path);
    block
}

// The block of the table of this path.
#[tactic(auto, unfolding(crate::specs::Blocks::block_at))]
fn block_at(
    alloc: Global,
    sims: &Names,
    ids: &Names,
    groups: &[Group],
    path: &Text,
    table: &Json,
) -> Result<Block, ScenarioFault>
    requires { ids.now ≡ group_ids groups.now }
    ensures ok { IfOk result (λ block. blocks.block_at sims.now groups.now path.now table.now
        ≡ Ok block) }
    ensures refused { IfErr result
        (λ e. IsFaultOf (blocks.block_at sims.now groups.now path.now table.now) e) }
{
    let said = block_said(alloc, path, table)?;
    match ends_fitting(alloc, sims, ids, groups, path, &said) {
        Ok(ends) => Ok(block_of(said, ends)),
        Err(fault) => {
            drop(said);
            Err(fault)
        }
    }
}

// The block that a table says, between its ends.
fn block_of(said: BlockSaid, ends: Ends) -> Block
    ensures { result ≡ block_of said ends.from ends.to }
{
    Block {
        from: ends.from,
        to: ends.to,
        attrs: said.attrs,
        via: via_of(said.manner.width, said.manner.weak),
        async_requests: said.manner.asks,
        initial: said.initial,
    }
}

// What the table of this path says.
fn block_said(alloc: Global, path: &Text, table: &Json) -> Result<BlockSaid, ScenarioFault>
    ensures ok { IfOk result (λ said. blocks.block_said path.now table.now ≡ Ok said) }
    ensures refused { IfErr result (λ e. IsFaultOf (blocks.block_said path.now table.now) e) }
{
    if let Some(key) = first_unknown(Table::Block, table) {
        return Err(ScenarioFault::UnknownKey(key_in(alloc, path, key.as_str())?));
    }
    let from = required_text(alloc, path, "from", table)?;
    let to = required_text(alloc, path, "to", table)?;
    said_between(alloc, path, table, from, to)
}

// What the table of this path says beside these two references.
fn said_between(
    alloc: Global,
    path: &Text,
    table: &Json,
    from: &Text,
    to: &Text,
) -> Result<BlockSaid, ScenarioFault>
    ensures ok { IfOk result (λ said. said_between path.now table.now from.now to.now ≡ Ok said) }
    ensures refused { IfErr result
        (λ e. IsFaultOf (said_between path.now table.now from.now to.now) e) }
{
    let attrs = pairs_or_none(alloc, path, table)?;
    let manner = manner_said(alloc, path, table)?;
    let initial = values_or_none(alloc, path, "initial_data", table)?;
    Ok(said_of(from, to, attrs, manner, initial)?)
}

// What a table says by these words and values.
fn said_of(
    from: &Text,
    to: &Text,
    attrs: List<AttrPair>,
    manner: Manner,
    initial: Json,
) -> Result<BlockSaid, Mem>
    ensures { IfOk result (λ said. said
        ≡ record {
          from = from.now;
          to = to.now;
          attrs = attrs;
          manner = manner;
          initial = initial;
        }) }
{
    let Ok((from, to)) = copies(from, to) else {
        drop(attrs);
        drop(initial);
        return Err(Mem);
    };
    Ok(BlockSaid {
        from,
        to,
        attrs,
        manner,
        initial,
    })
}

fn copies(from: &Text, to: &Text) -> Result<(Text, Text), Mem>
    ensures { IfOk result (λ both. both ≡ (from.now, to.now)) }
{
    Ok((from.copy()?, to.copy()?))
}

// The manner in which the table of this path says that the connection delivers.
fn manner_said(alloc: Global, path: &Text, table: &Json) -> Result<Manner, ScenarioFault>
    ensures ok { IfOk result (λ manner. blocks.manner_said path.now table.now ≡ Ok manner) }
    ensures refused { IfErr result (λ e. IsFaultOf (blocks.manner_said path.now table.now) e) }
{
    let width = width_or_none(alloc, path, "time_shifted", table)?;
    let weak = truth_or_false(alloc, path, "weak", table)?;
    let asks = truth_or_false(alloc, path, "async_requests", table)?;
    Ok(Manner { width, weak, asks })
}

// The pairs of attributes of the table of this path, none where it says none.
fn pairs_or_none(alloc: Global, path: &Text, table: &Json) -> Result<List<AttrPair>, ScenarioFault>
    ensures ok { IfOk result
        (λ found. keys.optional [] (key_in path.now (codes "attrs")) blocks.pairs
        (member (codes "attrs") table.now) ≡ Ok found) }
    ensures refused { IfErr result
        (λ e. IsFaultOf (keys.optional [] (key_in path.now (codes "attrs")) blocks.pairs
        (member (codes "attrs") table.now)) e) }
{
    match table.member("attrs") {
        Some(value) => pairs(alloc, &key_in(alloc, path, "attrs")?, value),
        None => Ok(List::new(alloc)),
    }
}

fn pairs(alloc: Global, path: &Text, value: &Json) -> Result<List<AttrPair>, ScenarioFault>
    ensures ok { IfOk result (λ found. blocks.pairs path.now value.now ≡ Ok found) }
    ensures refused { IfErr result (λ e. IsFaultOf (blocks.pairs path.now value.now) e) }
{
    let items = items(path, value)?;
    pairs_among(alloc, path, items.as_slice())
}

fn pairs_among(alloc: Global, path: &Text, items: &[Json]) -> Result<List<AttrPair>, ScenarioFault>
    ensures ok { IfOk result
        (λ pairs. each_at (λ i item.
        found (faults.WrongKind (item_in path.now i)) (blocks.pair_in item)) items.now ≡ Ok pairs) }
    ensures refused { IfErr result
        (λ e. IsFaultOf (each_at
        (λ i item. found (faults.WrongKind (item_in path.now i)) (blocks.pair_in item)) items.now)
        e) }
{
    let mut pairs = List::new(alloc);
    for (i, item) in items.iter().enumerate() {
        match pair_of(item)? {
            Some(pair) => pairs.push(pair)?,
            None => return Err(ScenarioFault::WrongKind(item_in(alloc, path, i)?)),
        }
    }
    Ok(pairs)
}

// The pair of attributes that the value is: one name for both sides, or a list of two.
fn pair_of(value: &Json) -> Result<Option<AttrPair>, Mem>
    ensures { IfOk result (λ pair. pair ≡ blocks.pair_in value.now) }
{
    match value {
        Json::Null => Ok(None),
        Json::Bool(_) => Ok(None),
        Json::Whole(_) => Ok(None),
        Json::Odd => Ok(None),
        Json::Text(name) => Ok(Some(AttrPair {
            from: name.copy()?,
            to: name.copy()?,
        })),
        Json::List(items) => two_of(items.as_slice()),
        Json::Object(_) => Ok(None),
    }
}

fn two_of(items: &[Json]) -> Result<Option<AttrPair>, Mem>
    ensures { IfOk result (λ pair. pair ≡ blocks.two_of items.now) }
{
    match items {
        [from, to] => two_names(from.as_text(), to.as_text()),
        _ => Ok(None),
    }
}

fn two_names(from: Option<&Text>, to: Option<&Text>) -> Result<Option<AttrPair>, Mem>
    ensures { IfOk result (λ pair. pair
        ≡ blocks.two_names (option_map (λ t. t.now) from.entry)
        (option_map (λ t. t.now) to.entry)) }
{
    match (from, to) {
        (Some(from), Some(to)) => Ok(Some(AttrPair {
            from: from.copy()?,
            to: to.copy()?,
        })),
        _ => Ok(None),
    }
}

// The ends of the block that a table of this path says, where what it says fits between them.
fn ends_fitting(
    alloc: Global,
    sims: &Names,
    ids: &Names,
    groups: &[Group],
    path: &Text,
    said: &BlockSaid,
) -> Result<Ends, ScenarioFault>
    requires { ids.now ≡ group_ids groups.now }
    ensures ok { IfOk result
        (λ ends. blocks.block_made sims.now groups.now path.now said.now
        ≡ Ok (block_of said.now ends.from ends.to)) }
    ensures refused { IfErr result
        (λ e. IsFaultOf (blocks.block_made sims.now groups.now path.now said.now) e) }
{
    let from = place_under(alloc, sims, ids, groups, path, "from", &said.from)?;
    let to = match place_under(alloc, sims, ids, groups, path, "to", &said.to) {
        Ok(to) => to,
        Err(fault) => {
            drop(from);
            return Err(fault);
        }
    };
    match block_fits(alloc, groups, path, said, &from, &to) {
        Ok(()) => Ok(Ends { from, to }),
        Err(fault) => {
            drop(from);
            drop(to);
            Err(fault)
        }
    }
}

// What the text under a key of the table of this path refers to.
fn place_under(
    alloc: Global,
    sims: &Names,
    ids: &Names,
    groups: &[Group],
    path: &Text,
    key: &str,
    text: &Text,
) -> Result<Place, ScenarioFault>
    requires { ids.now ≡ group_ids groups.now }
    ensures ok { IfOk result
        (λ place. place_of sims.now groups.now (key_in path.now key.now) text.now ≡ Ok place) }
    ensures refused { IfErr result
        (λ e. IsFaultOf (place_of sims.now groups.now (key_in path.now key.now) text.now) e) }
{
    place_of(alloc, sims, ids, groups, &key_in(alloc, path, key)?, text)
}

// What a table of this path says fits between these places: at most one kind, its initial values, and its sides.
fn block_fits(
    alloc: Global,
    groups: &[Group],
    path: &Text,
    said: &BlockSaid,
    from: &Place,
    to: &Place,
) -> Result<(), ScenarioFault>
    ensures ok { IfOk result (λ _. blocks.block_fits groups.now path.now said.now from.now to.now
        ≡ Ok said.now.initial) }
    ensures refused { IfErr result
        (λ e. IsFaultOf (blocks.block_fits groups.now path.now said.now from.now to.now) e) }
{
    let manner = said.manner;
    if !at_most_one(manner.width.is_some(), manner.weak, manner.asks) {
        return Err(ScenarioFault::TwoKinds(path.copy()?));
    }
    initial_fits(alloc, path, said)?;
    let (m, n) = (size_of(groups, from), size_of(groups, to));
    if !sides_pair(m, n) {
        return Err(ScenarioFault::Uneven(path.copy()?, m, n));
    }
    Ok(())
}

fn at_most_one(a: bool, b: bool, c: bool) -> bool
    ensures { result ≡ blocks.at_most_one a b c }
{
    !((a && b) || (a && c) || (b && c))
}

fn via_of(width: Option<u32>, weak: bool) -> Via
    ensures { result ≡ blocks.via_of width weak }
{
    match width {
        Some(width) => Via::Shift(width),
        None if weak => Via::Weak,
        None => Via::Plain,
    }
}

// One side has one entity, or both have equally many.
fn sides_pair(m: u32, n: u32) -> bool
    ensures { result ≡ blocks.sides_pair m n }
{
    n == 1 || m == 1 || m == n
}

// Initial values that a table of this path says stand only where the delivery is delayed, and only under source
// attributes.
fn initial_fits(alloc: Global, path: &Text, said: &BlockSaid) -> Result<(), ScenarioFault>
    ensures ok { IfOk result (λ _. initial_fits path.now said.now ≡ Ok said.now.initial) }
    ensures refused { IfErr result (λ e. IsFaultOf (initial_fits path.now said.now) e) }
{
    let path = key_in(alloc, path, "initial_data")?;
    if !(is_delayed(said.manner) || said.initial.members().is_empty()) {
        return Err(ScenarioFault::UnknownKey(path));
    }
    match first_unfed(alloc, said.attrs.as_slice(), &said.initial)? {
        Some(name) => Err(ScenarioFault::UnknownKey(key_in(alloc, &path, name.as_str())?)),
        None => Ok(()),
    }
}

fn is_delayed(manner: Manner) -> bool
    ensures { result ≡ is_delayed manner }
{
    manner.width.is_some() || manner.weak
}

// The first name, in byte order, that no pair has as its source.
fn first_unfed<'a>(
    alloc: Global,
    attrs: &[AttrPair],
    initial: &'a Json,
) -> Result<Option<&'a Text>, Mem>
    ensures { IfOk result (λ name. option_map (λ t. t.now) name
        ≡ blocks.first_unfed attrs.now initial.now) }
{
    let members = initial.members();
    if members.is_empty() {
        return Ok(None);
    }
    let sources = source_names(alloc, attrs)?;
    let name = first_other(&sources, members);
    drop(sources);
    Ok(name)
}

// The source names of the pairs.
fn source_names(alloc: Global, attrs: &[AttrPair]) -> Result<Names, Mem>
    ensures { IfOk result (λ names. names ≡ source_names attrs.now) }
{
    let mut names = Names::new(alloc);
    for pair in attrs {
        names = names.with(alloc, &pair.from)?;
    }
    Ok(names)
}

// The first member, in byte order, whose name is none of these.
fn first_other<'a>(names: &Names, members: &'a [(Text, Json)]) -> Option<&'a Text>
    ensures { option_map (λ t. t.now) result
        ≡ find (λ key. not (is_among names.now key))
        (map (λ (m : List ℕ × Json). m.0) members.now) }
{
    for (name, _) in members {
        if !names.has(name.as_str()) {
            return Some(name);
        }
    }
    None
}
