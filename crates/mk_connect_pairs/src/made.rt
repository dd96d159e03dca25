//! The connections made so far, among which one of the same way is found without going through them.
ghost use Rattle.std.specs.Prelude.{◌≡◌, ◌++◌, ◌∷◌, [], false, length, IfOk, OnOk};
ghost use Rattle.std.specs.List.{list_any};
ghost use Rattle.mk_connect_pairs.specs.Connections.{is_way};
ghost use Rattle.mk_connect_pairs.specs.inner.Lookups.{HasWays, IsWay};

use indexmap::IndexSet;
use mk_base::{List, Mem, Text};
use mk_plan::Conn;
use std::alloc::Global;
use std::marker::Model;

/// Connections, which contracts see as the list of them.
#[derive(Drop)]
pub struct Made {
    conns: List<Conn>,
    ways: IndexSet<(u32, u32, String)>,
}

impl Model for Made {
    ghost use Rattle.std.specs.Prelude.{List};
    ghost use Rattle.mk_plan.specs.declared.Conn.{Conn};
    ghost use Rattle.mk_connect_pairs.specs.inner.Lookups.{HasWays};

    ghost Value = { List Conn };

    ghost view = { λ a. a.conns };

    ghost invariant = { λ a. HasWays a.ways a.conns };
}

impl Made {
    pub(crate) fn new(alloc: Global) -> Made
        ensures { result ≡ [] }
    {
        Made {
            conns: List::new(alloc),
            ways: IndexSet::new(alloc),
        }
    }

    pub(crate) fn len(&self) -> usize
        ensures { result ≡ length self.now }
    {
        self.conns.len()
    }

    // Whether a connection leads from this entity to this attribute of that one.
    pub(crate) fn has(&self, alloc: Global, from: u32, to: u32, attr: &Text) -> Result<bool, Mem>
        ensures { IfOk result (λ has. has ≡ list_any (is_way from to attr.now) self.now) }
    {
        let way = way(alloc, from, to, attr)?;
        Ok(self.ways.contains(&way))
    }

    // These connections and one more, of a way of its own.
    pub(crate) fn with(self, alloc: Global, conn: Conn) -> Result<Made, Mem>
        requires { list_any (is_way conn.from conn.to conn.to_attr) self ≡ false }
        ensures { IfOk result (λ made. made ≡ self ++ conn ∷ []) }
    {
        let Made {
            mut conns,
            mut ways,
        } = self;
        add(alloc, &mut conns, &mut ways, conn)?;
        Ok(Made { conns, ways })
    }

    /// Gives the list back; takes no memory.
    pub fn into_list(self) -> List<Conn>
        ensures { result ≡ self }
    {
        self.conns
    }
}

// Puts one more connection to these, of a way of its own.
fn add(
    alloc: Global,
    conns: &mut List<Conn>,
    ways: &mut IndexSet<(u32, u32, String)>,
    conn: Conn,
) -> Result<(), Mem>
    requires ways { HasWays ways.old conns.old }
    requires alone { list_any (is_way conn.from conn.to conn.to_attr) conns.old ≡ false }
    ensures conns { OnOk result (conns.new ≡ conns.old ++ conn ∷ []) }
    ensures ways { OnOk result (HasWays ways.new conns.new) }
{
    know(alloc, conns, ways, &conn)?;
    conns.push(conn)?;
    Ok(())
}

// Puts the way of a connection beside these to theirs.
fn know(
    alloc: Global,
    conns: &List<Conn>,
    ways: &mut IndexSet<(u32, u32, String)>,
    conn: &Conn,
) -> Result<(), Mem>
    requires ways { HasWays ways.old conns.now }
    requires alone { list_any (is_way conn.now.from conn.now.to conn.now.to_attr) conns.now
        ≡ false }
    ensures { OnOk result (HasWays ways.new (conns.now ++ conn.now ∷ [])) }
{
    let way = way(alloc, conn.from, conn.to, &conn.to_attr)?;
    ways.insert(way)?;
    Ok(())
}

// What tells connections apart: the entities and the target's attribute.
fn way(alloc: Global, from: u32, to: u32, attr: &Text) -> Result<(u32, u32, String), Mem>
    ensures { IfOk result (λ way. IsWay way (from, to, attr.now)) }
{
    Ok((from, to, String::from_str(alloc, attr.as_str())?))
}
