//! A fault that is answered again, and the faults of a setup's parts as its own.
ghost use Rattle.std.specs.Prelude.{◌≡◌, ◌≢◌, ◌⊎◌, IfOk, None, Some};

use crate::fault::SetupFault;
use mk_base::{Mem, SimNo};
use mk_connect::ConnectFault;
use mk_entities::CreateFault;
use mk_meta::MetaFault;

fn copy_meta(fault: &MetaFault) -> Result<MetaFault, Mem>
    ensures { IfOk result (λ f. f ≡ fault.now) }
{
    Ok(match fault {
        MetaFault::NoVersion => MetaFault::NoVersion,
        MetaFault::Version(version) => MetaFault::Version(version.copy()?),
        MetaFault::BadType(kind) => MetaFault::BadType(kind.copy()?),
        MetaFault::NoModels => MetaFault::NoModels,
        MetaFault::Model(model, member) => MetaFault::Model(model.copy()?, member.copy()?),
        MetaFault::TriggerUnknown(model, attr) => {
            MetaFault::TriggerUnknown(model.copy()?, attr.copy()?)
        }
        MetaFault::Mem => MetaFault::Mem,
    })
}

fn copy_create(fault: &CreateFault) -> Result<CreateFault, Mem>
    ensures { IfOk result (λ f. f ≡ fault.now) }
{
    Ok(match fault {
        CreateFault::Count(asked, got) => CreateFault::Count(*asked, *got),
        CreateFault::NoEid(place) => CreateFault::NoEid(*place),
        CreateFault::TwiceEid(eid) => CreateFault::TwiceEid(eid.copy()?),
        CreateFault::OfType(eid) => CreateFault::OfType(eid.copy()?),
        CreateFault::Related(eid, named) => CreateFault::Related(eid.copy()?, named.copy()?),
        CreateFault::TooMany(count) => CreateFault::TooMany(*count),
        CreateFault::Mem => CreateFault::Mem,
    })
}

fn copy_connect(fault: &ConnectFault) -> Result<ConnectFault, Mem>
    ensures { IfOk result (λ f. f ≡ fault.now) }
{
    Ok(match fault {
        ConnectFault::NoEntity(id) => ConnectFault::NoEntity(id.copy()?),
        ConnectFault::NoSourceAttr(id, attr) => {
            ConnectFault::NoSourceAttr(id.copy()?, attr.copy()?)
        }
        ConnectFault::NoTargetAttr(id, attr) => {
            ConnectFault::NoTargetAttr(id.copy()?, attr.copy()?)
        }
        ConnectFault::NotPublic(sim, model) => ConnectFault::NotPublic(sim.copy()?, model.copy()?),
        ConnectFault::UnknownParam(model, param) => {
            ConnectFault::UnknownParam(model.copy()?, param.copy()?)
        }
        ConnectFault::Twice(to, attr, from) => {
            ConnectFault::Twice(to.copy()?, attr.copy()?, from.copy()?)
        }
        ConnectFault::NoInitial(id, attr) => ConnectFault::NoInitial(id.copy()?, attr.copy()?),
        ConnectFault::TooMany(count) => ConnectFault::TooMany(*count),
        ConnectFault::Mem => ConnectFault::Mem,
    })
}

fn copy_fault(fault: &SetupFault) -> Result<SetupFault, Mem>
    ensures { IfOk result (λ f. f ≡ fault.now) }
{
    Ok(match fault {
        SetupFault::Meta(sim, fault) => SetupFault::Meta(*sim, copy_meta(fault)?),
        SetupFault::Create(sim, fault) => SetupFault::Create(*sim, copy_create(fault)?),
        SetupFault::Connect(fault) => SetupFault::Connect(copy_connect(fault)?),
        SetupFault::Unasked(sim) => SetupFault::Unasked(*sim),
        SetupFault::Failed(sim, text) => SetupFault::Failed(*sim, text.copy()?),
        SetupFault::Mem => SetupFault::Mem,
    })
}

// The fault again, or want of memory.
pub fn repeated(fault: &SetupFault) -> SetupFault
    ensures { (result ≡ fault.now) ⊎ (result ≡ SetupFault.Mem) }
{
    match copy_fault(fault) {
        Ok(fault) => fault,
        Err(Mem) => SetupFault::Mem,
    }
}

// Keeps a copy of a fault other than want of memory, and gives the fault; or want of memory.
pub fn keep(kept: &mut Option<SetupFault>, fault: SetupFault) -> SetupFault
    requires { kept.old ≡ None }
    ensures { ((result ≡ SetupFault.Mem) × (kept.new ≡ None))
        ⊎ ((result ≡ fault) × (kept.new ≡ Some fault) × (fault ≢ SetupFault.Mem)) }
{
    match copy_fault(&fault) {
        Err(Mem) | Ok(SetupFault::Mem) => SetupFault::Mem,
        Ok(copy) => {
            *kept = Some(copy);
            fault
        }
    }
}

// Why a reply to `init` isn't taken.
pub fn meta_fault(sim: SimNo, fault: MetaFault) -> SetupFault
    ensures { (result ≡ SetupFault.Mem)
        ⊎ ((result ≡ SetupFault.Meta sim fault) × (fault ≢ MetaFault.Mem)) }
{
    match fault {
        MetaFault::Mem => SetupFault::Mem,
        fault => SetupFault::Meta(sim, fault),
    }
}

// Why a reply to `create` isn't taken.
pub fn create_fault(sim: SimNo, fault: CreateFault) -> SetupFault
    ensures { (result ≡ SetupFault.Mem)
        ⊎ ((result ≡ SetupFault.Create sim fault) × (fault ≢ CreateFault.Mem)) }
{
    match fault {
        CreateFault::Mem => SetupFault::Mem,
        fault => SetupFault::Create(sim, fault),
    }
}

// Why a request isn't made, or no plan.
pub fn connect_fault(fault: ConnectFault) -> SetupFault
    ensures { (result ≡ SetupFault.Mem)
        ⊎ ((result ≡ SetupFault.Connect fault) × (fault ≢ ConnectFault.Mem)) }
{
    match fault {
        ConnectFault::Mem => SetupFault::Mem,
        fault => SetupFault::Connect(fault),
    }
}
