//! Which request comes next, by how many were answered.
ghost use Rattle.std.specs.Prelude.{◌≤◌};
ghost use Rattle.mk_base.specs.Limits.{most_entities, most_sims};
ghost use Rattle.mk_setup.specs.inner.Stages.{IsStage};

// `init` to this simulator, `create` for this group, `setup_done` to this simulator, or none.
#[derive(Clone, Copy, Debug, PartialEq, Eq)]
pub enum Stage {
    Init(u32),
    Create(u32),
    Done(u32),
    Over,
}

// The stage of so many simulators and groups after so many replies.
pub fn stage_of(sims: usize, groups: usize, answered: usize) -> Stage
    requires few_sims { sims ≤ most_sims }
    requires few_groups { groups ≤ most_entities }
    ensures { IsStage sims groups answered result }
{
    if answered < sims {
        return Stage::Init(answered as u32);
    }
    let created = answered - sims;
    if created < groups {
        return Stage::Create(created as u32);
    }
    let done = created - groups;
    if done < sims {
        Stage::Done(done as u32)
    } else {
        Stage::Over
    }
}
