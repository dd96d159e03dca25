//! What connections are made of, so that nothing is looked for by going through it.
ghost use Rattle.std.specs.Prelude.{◌≡◌, map, option_and_then, slice_get};
ghost use Rattle.mk_connect_pairs.specs.Lookups.{HasMembers};
ghost use Rattle.mk_connect_pairs.specs.Models.{model_number};

use crate::numbers::Models;
use mk_base::List;
use mk_entities::Entities;
use mk_scenario::SimPart;

/// The simulators, their models and entities; the number of each entity's model; and the entities of each group.
#[derive(Drop)]
pub struct Study<'a> {
    pub sims: &'a [SimPart],
    pub models: &'a Models,
    pub entities: &'a Entities,
    pub numbers: &'a List<Option<u32>>,
    pub members: &'a [List<u32>],
    ghost numbered: { numbers.now ≡ map (model_number models.now) entities.now },
    ghost grouped: { HasMembers entities.now members.now },
}

/// The number of the model of the entity of this number, none where it has no model or there is no such entity.
pub fn number_at(numbers: &List<Option<u32>>, entity: usize) -> Option<u32>
    ensures { result ≡ option_and_then (λ n. n) (slice_get numbers.now entity) }
{
    match numbers.get(entity) {
        Some(number) => *number,
        None => None,
    }
}
