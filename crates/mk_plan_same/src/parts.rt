//! Whether two parts of plans, or of what is sent, are the same.
use crate::same::{Same, same_all};
use mk_plan::{AsyncPair, Conn, Input, PlanEntity, PlanModel, PlanSim, Want};

impl Same for PlanSim {
    fn same(&self, other: &PlanSim) -> bool {
        self.id.same(&other.id)
            && self.kind.same(&other.kind)
            && self.first_id == other.first_id
            && self.rank == other.rank
            && same_all(&self.initial, &other.initial)
    }
}

impl Same for PlanModel {
    fn same(&self, other: &PlanModel) -> bool {
        self.sim.0 == other.sim.0
            && self.name.same(&other.name)
            && same_all(&self.attrs, &other.attrs)
            && self.any_inputs == other.any_inputs
    }
}

impl Same for PlanEntity {
    fn same(&self, other: &PlanEntity) -> bool {
        self.model == other.model
            && self.eid.same(&other.eid)
            && same_all(&self.related, &other.related)
    }
}

impl Same for Conn {
    fn same(&self, other: &Conn) -> bool {
        self.from == other.from
            && self.from_attr.same(&other.from_attr)
            && self.to == other.to
            && self.to_attr.same(&other.to_attr)
            && self.via.same(&other.via)
            && self.persistent == other.persistent
            && self.triggering == other.triggering
            && self.initial.same(&other.initial)
    }
}

impl Same for AsyncPair {
    fn same(&self, other: &AsyncPair) -> bool {
        self.from.0 == other.from.0 && self.to.0 == other.to.0
    }
}

impl Same for Input {
    fn same(&self, other: &Input) -> bool {
        self.eid.same(&other.eid)
            && self.attr.same(&other.attr)
            && self.source.same(&other.source)
            && self.value.same(&other.value)
    }
}

impl Same for Want {
    fn same(&self, other: &Want) -> bool {
        self.eid.same(&other.eid) && self.attr.same(&other.attr)
    }
}
