//! The rows of a table.
ghost use Rattle.std.specs.Prelude.{◌≡◌};
ghost use Rattle.mk_watch.specs.Values.{row_of};

use crate::values::folded;
use mk_base::{Text, Tier};
use mk_plan::Item;
use mk_watch_read::Rule;

// A row: the tiered time of a Step, and the value there.
#[derive(Clone, Copy, Debug, PartialEq, Eq)]
pub struct Row {
    pub at: Tier,
    pub value: i64,
}

// The row of an item: of a Step whose inputs have some at the attribute of the entity.
pub fn row_of(rule: &Rule, eid: &Text, attr: &Text, item: &Item) -> Option<Row>
    ensures { result ≡ row_of rule.now.fold eid.now attr.now item.now }
{
    match item {
        Item::Step {
            at,
            inputs,
            max_advance: _,
        } => match folded(rule, eid, attr, inputs) {
            Some(value) => Some(Row { at: *at, value }),
            None => None,
        },
        Item::GetData { wanted: _ } => None,
        Item::Answer { id: _, content: _ } => None,
        Item::Refuse { id: _, reason: _ } => None,
    }
}
