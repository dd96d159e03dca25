//! The requests of a handshake.
ghost use Rattle.std.specs.Prelude.{◌≡◌, IfOk};

use mk_base::Mem;
use mk_plan::Call;
use mk_scenario::{Group, SimPart};
use std::alloc::Global;

pub fn init_call(alloc: Global, part: &SimPart) -> Result<Call, Mem>
    ensures { IfOk result (λ call. call ≡ Call.Init part.now.id part.now.params) }
{
    Ok(Call::Init {
        sim: part.id.copy()?,
        params: part.params.copy(alloc)?,
    })
}

pub fn create_call(alloc: Global, group: &Group) -> Result<Call, Mem>
    ensures { IfOk result (λ call. call
        ≡ Call.Create group.now.num group.now.model group.now.params) }
{
    Ok(Call::Create {
        num: group.num,
        model: group.model.copy()?,
        params: group.params.copy(alloc)?,
    })
}
