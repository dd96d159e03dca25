//! The connections that a scenario makes, or the first test that one of them fails.
ghost use Rattle.std.specs.Prelude.{◌≡◌, ◌++◌, ◌∷◌, [], Ok, None, true, length, IfOk, IfErr, false};
ghost use Rattle.std.specs.List.{list_any};
ghost use Rattle.mk_base.specs.Lists.{Each};
ghost use Rattle.mk_scenario_keys.specs.Keys.{IsObjectOfData};
ghost use Rattle.mk_connect_pairs.specs.Connections.{attrs_fault, block_made, block_pairs, conn_between, conn_fault, connected, conns_made, has_initial, initial_text, is_way, pair_made};
ghost use Rattle.mk_connect_pairs.specs.Ends.{full_id};
ghost use Rattle.mk_connect_pairs.specs.Faults.{IsFaultOf, through};
ghost use Rattle.mk_connect_pairs.specs.Usable.{IsUsable};
ghost use Rattle.mk_connect_pairs.specs.inner.Blocks.{tested_pairs};

use crate::attributes::{has_attr, keeps_attr, takes_attr, triggers_by};
use crate::ends::{ends_at, full_id, pairs_between, place_fault};
use crate::fault::ConnectFault;
use crate::made::Made;
use crate::study::Study;
use mk_base::{Datum, Json, MOST_CONNS, Mem, Text, Via};
use mk_json::datum_of;
use mk_plan::Conn;
use mk_scenario::{AttrPair, Block};
use std::alloc::Global;

/// The connections of all blocks, in order, or the first test that one of them fails, or want of memory. Each block
/// stands between groups that there are, and its initial values are data.
pub fn conns_made(alloc: Global, study: &Study, blocks: &[Block]) -> Result<Made, ConnectFault>
    requires { Each (IsUsable (length study.now.members.now)) blocks.now }
    ensures ok { IfOk result
        (λ made. conns_made study.now.sims.now study.now.models.now study.now.entities.now
        blocks.now ≡ Ok made) }
    ensures refused { IfErr result
        (λ e. IsFaultOf (conns_made study.now.sims.now study.now.models.now study.now.entities.now
        blocks.now) e) }
{
    let mut made = Made::new(alloc);
    for block in blocks {
        match block_made(alloc, study, made, block) {
            Ok(more) => made = more,
            Err(fault) => return Err(fault),
        }
    }
    Ok(made)
}

// The connections of a block: what it names are entities, and each two that it pairs are connected.
fn block_made(alloc: Global, study: &Study, made: Made, block: &Block) -> Result<Made, ConnectFault>
    requires { IsUsable (length study.now.members.now) block.now }
    ensures ok { IfOk result
        (λ new. block_made study.now.sims.now study.now.models.now study.now.entities.now made
        block.now ≡ Ok new) }
    ensures refused { IfErr result
        (λ e. IsFaultOf (block_made study.now.sims.now study.now.models.now study.now.entities.now
        made block.now) e) }
{
    match tested_pairs(alloc, study, block) {
        Ok(pairs) => pairs_made(alloc, study, made, block, pairs.as_slice()),
        Err(fault) => Err(fault),
    }
}

// Which entities a block pairs, where what it names are entities.
fn tested_pairs(
    alloc: Global,
    study: &Study,
    block: &Block,
) -> Result<Vec<(u32, u32)>, ConnectFault>
    requires { IsUsable (length study.now.members.now) block.now }
    ensures ok { IfOk result
        (λ pairs. tested_pairs study.now.sims.now study.now.entities.now block.now
        ≡ Ok pairs.items) }
    ensures refused { IfErr result
        (λ e. IsFaultOf (tested_pairs study.now.sims.now study.now.entities.now block.now) e) }
{
    if let Some(fault) = place_fault(alloc, study, &block.from)? {
        return Err(fault);
    }
    if let Some(fault) = place_fault(alloc, study, &block.to)? {
        return Err(fault);
    }
    Ok(block_pairs(alloc, study, block)?)
}

/// Which entities a block pairs, by their numbers: a source and a target each. Fails for want of memory alone.
pub fn block_pairs(alloc: Global, study: &Study, block: &Block) -> Result<Vec<(u32, u32)>, Mem>
    requires { IsUsable (length study.now.members.now) block.now }
    ensures { IfOk result (λ pairs. pairs.items ≡ block_pairs study.now.entities.now block.now) }
{
    let froms = ends_at(alloc, study, &block.from)?;
    let tos = ends_at(alloc, study, &block.to)?;
    pairs_between(alloc, froms.as_slice(), tos.as_slice())
}

fn pairs_made(
    alloc: Global,
    study: &Study,
    made: Made,
    block: &Block,
    pairs: &[(u32, u32)],
) -> Result<Made, ConnectFault>
    requires { IsUsable (length study.now.members.now) block.now }
    ensures ok { IfOk result
        (λ new. through (pair_made study.now.sims.now study.now.models.now study.now.entities.now
        block.now) made pairs.now ≡ Ok new) }
    ensures refused { IfErr result
        (λ e. IsFaultOf (through
        (pair_made study.now.sims.now study.now.models.now study.now.entities.now block.now) made
        pairs.now) e) }
{
    let mut made = made;
    for ends in pairs {
        match pair_made(alloc, study, made, block, *ends) {
            Ok(more) => made = more,
            Err(fault) => return Err(fault),
        }
    }
    Ok(made)
}

// The connections of two entities, for each pair of attributes.
fn pair_made(
    alloc: Global,
    study: &Study,
    made: Made,
    block: &Block,
    ends: (u32, u32),
) -> Result<Made, ConnectFault>
    requires { IsUsable (length study.now.members.now) block.now }
    ensures ok { IfOk result
        (λ new. pair_made study.now.sims.now study.now.models.now study.now.entities.now block.now
        made ends ≡ Ok new) }
    ensures refused { IfErr result
        (λ e. IsFaultOf (pair_made study.now.sims.now study.now.models.now study.now.entities.now
        block.now made ends) e) }
{
    let mut made = made;
    for pair in block.attrs.as_slice() {
        match connected(alloc, study, made, block, ends, pair) {
            Ok(more) => made = more,
            Err(fault) => return Err(fault),
        }
    }
    Ok(made)
}

// One connection more, after its tests.
fn connected(
    alloc: Global,
    study: &Study,
    made: Made,
    block: &Block,
    ends: (u32, u32),
    pair: &AttrPair,
) -> Result<Made, ConnectFault>
    requires { IsUsable (length study.now.members.now) block.now }
    ensures ok { IfOk result
        (λ new. connected study.now.sims.now study.now.models.now study.now.entities.now block.now
        ends made pair.now ≡ Ok new) }
    ensures refused { IfErr result
        (λ e. IsFaultOf (connected study.now.sims.now study.now.models.now study.now.entities.now
        block.now ends made pair.now) e) }
{
    match tested_conn(alloc, study, &made, block, ends, pair) {
        Ok(conn) => Ok(made.with(alloc, conn)?),
        Err(fault) => Err(fault),
    }
}

// The connection of two entities by a pair of attributes of a block, after its tests beside these.
fn tested_conn(
    alloc: Global,
    study: &Study,
    made: &Made,
    block: &Block,
    ends: (u32, u32),
    pair: &AttrPair,
) -> Result<Conn, ConnectFault>
    requires { IsUsable (length study.now.members.now) block.now }
    ensures ok { IfOk result
        (λ conn. connected study.now.sims.now study.now.models.now study.now.entities.now block.now
        ends made.now pair.now ≡ Ok (made.now ++ conn ∷ [])) }
    ensures alone { IfOk result
        (λ conn. list_any (is_way conn.from conn.to conn.to_attr) made.now ≡ false) }
    ensures refused { IfErr result
        (λ e. IsFaultOf (connected study.now.sims.now study.now.models.now study.now.entities.now
        block.now ends made.now pair.now) e) }
{
    if let Some(fault) = attrs_fault(alloc, study, ends, pair)? {
        return Err(fault);
    }
    let conn = conn_between(alloc, study, block, ends, pair)?;
    match conn_fault(alloc, study, made, &conn)? {
        Some(fault) => Err(fault),
        None => Ok(conn),
    }
}

// The attributes that the pair names are there: an output of the source's model, and an input of the target's.
fn attrs_fault(
    alloc: Global,
    study: &Study,
    ends: (u32, u32),
    pair: &AttrPair,
) -> Result<Option<ConnectFault>, Mem>
    ensures { IfOk result (λ fault. fault
        ≡ attrs_fault study.now.sims.now study.now.models.now study.now.entities.now ends
        pair.now) }
{
    if !has_attr(study, ends.0, &pair.from) {
        let source = full_id(alloc, study, ends.0)?;
        let attr = pair.from.copy()?;
        return Ok(Some(ConnectFault::NoSourceAttr(source, attr)));
    }
    if !takes_attr(study, ends.1, &pair.to) {
        let target = full_id(alloc, study, ends.1)?;
        let attr = pair.to.copy()?;
        return Ok(Some(ConnectFault::NoTargetAttr(target, attr)));
    }
    Ok(None)
}

// Beside those that there are, the connection is the only one of its way; it has the initial value that it needs; and
// there is room.
fn conn_fault(
    alloc: Global,
    study: &Study,
    made: &Made,
    conn: &Conn,
) -> Result<Option<ConnectFault>, Mem>
    ensures { IfOk result (λ fault. fault
        ≡ conn_fault study.now.sims.now study.now.entities.now made.now conn.now) }
{
    if made.has(alloc, conn.from, conn.to, &conn.to_attr)? {
        return Ok(Some(twice(alloc, study, conn)?));
    }
    if !has_initial(conn.via, conn.persistent, conn.initial.is_some()) {
        let target = full_id(alloc, study, conn.to)?;
        let attr = conn.from_attr.copy()?;
        return Ok(Some(ConnectFault::NoInitial(target, attr)));
    }
    if made.len() >= MOST_CONNS as usize {
        return Ok(Some(ConnectFault::TooMany(u64::from(MOST_CONNS) + 1)));
    }
    Ok(None)
}

fn twice(alloc: Global, study: &Study, conn: &Conn) -> Result<ConnectFault, Mem>
    ensures { IfOk result (λ fault. fault
        ≡ ConnectFault.Twice
        (full_id study.now.sims.now study.now.entities.now conn.now.to) conn.now.to_attr
        (full_id study.now.sims.now study.now.entities.now conn.now.from)) }
{
    let target = full_id(alloc, study, conn.to)?;
    let attr = conn.to_attr.copy()?;
    let source = full_id(alloc, study, conn.from)?;
    Ok(ConnectFault::Twice(target, attr, source))
}

// A time-shifted connection that keeps its value has an initial one.
fn has_initial(via: Via, persistent: bool, given: bool) -> bool
    ensures { result ≡ has_initial via persistent given }
{
    match via {
        Via::Plain => true,
        Via::Shift(_) => !persistent || given,
        Via::Weak => true,
    }
}

// The connection of two entities by a pair of attributes of a block.
fn conn_between(
    alloc: Global,
    study: &Study,
    block: &Block,
    ends: (u32, u32),
    pair: &AttrPair,
) -> Result<Conn, Mem>
    requires { IsUsable (length study.now.members.now) block.now }
    ensures { IfOk result (λ conn. conn
        ≡ conn_between study.now.models.now study.now.entities.now block.now ends pair.now) }
{
    let from_attr = pair.from.copy()?;
    let to_attr = pair.to.copy()?;
    let initial = initial_text(alloc, &block.initial, &pair.from)?;
    Ok(Conn {
        from: ends.0,
        from_attr,
        to: ends.1,
        to_attr,
        via: block.via,
        persistent: keeps_attr(study, ends.0, &pair.from),
        triggering: triggers_by(study, ends.1, &pair.to),
        initial,
    })
}

// The text of the initial value that a block gives a source attribute.
fn initial_text(alloc: Global, initial: &Json, attr: &Text) -> Result<Option<Datum>, Mem>
    requires { IsObjectOfData initial.now }
    ensures { IfOk result (λ text. text ≡ initial_text initial.now attr.now) }
{
    match initial.member(attr.as_str()) {
        Some(value) => Ok(Some(datum_of(alloc, value)?)),
        None => Ok(None),
    }
}
