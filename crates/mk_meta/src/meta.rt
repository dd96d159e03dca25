//! The tests of a reply to `init`.
ghost use Rattle.std.specs.Prelude.{◌≡◌, map, IfOk, IfErr, IfSome, ◌≤◌, length, Ok, Err, ◌⊎◌, option_map, option_and_then};
ghost use Rattle.mk_base.specs.Lists.{Each};
ghost use Rattle.mk_base.specs.Trees.{members_in};
ghost use Rattle.mk_base.specs.Verdicts.{all_well};
ghost use Rattle.mk_meta.specs.Metadata.{HasKnownAttrs, IsListed, is_version_three, kind_in, few_enough, meta_in, model_in, models_in, type_text};
ghost use Rattle.mk_meta.specs.declared.fault.MetaFault.TheVariants as fault;
ghost use Rattle.mk_base.specs.Limits.{most_models};

use crate::fault::MetaFault;
use crate::model::model_of;
use mk_base::{Json, List, MOST_MODELS, Mem, Members, SimKind, Text};
use std::alloc::Global;

/// A model, as the metadata describes it (mosaik 3, low-level API). `events` are the attributes under `non-persistent`.
/// For time-based and event-based simulators `trigger` and `events` are empty.
#[derive(Drop)]
pub struct ModelMeta {
    pub name: Text,
    pub public: bool,
    pub params: List<Text>,
    pub attrs: List<Text>,
    pub any_inputs: bool,
    pub trigger: List<Text>,
    pub events: List<Text>,
}

/// The metadata of a simulator: its type, and its models in byte order of their distinct names.
#[derive(Drop)]
pub struct Meta {
    pub kind: SimKind,
    pub models: List<ModelMeta>,
}

/// The metadata in a reply to `init` (mosaik 3, low-level API), or the first test that the reply fails. Without a
/// `type` the simulator is time-based.
pub fn read_meta(alloc: Global, reply: &Json) -> Result<Meta, MetaFault>
    ensures ok { IfOk result (λ meta. meta_in reply.now ≡ Ok meta) }
    ensures listed { IfOk result (λ meta. IsListed meta.models) }
    ensures known { IfOk result (λ meta. Each (HasKnownAttrs meta.kind) meta.models) }
    ensures refused { IfErr result (λ e. (e ≡ MetaFault.Mem) ⊎ (meta_in reply.now ≡ Err e)) }
{
    meta_of(alloc, reply)?
}

fn meta_of(alloc: Global, reply: &Json) -> Result<Result<Meta, MetaFault>, Mem>
    ensures told { IfOk result (λ meta. meta ≡ meta_in reply.now) }
    ensures listed { IfOk result (λ found. IfOk found (λ meta. IsListed meta.models)) }
    ensures known { IfOk result
        (λ found. IfOk found (λ meta. Each (HasKnownAttrs meta.kind) meta.models)) }
{
    let Some(version) = reply.text_under("api_version") else {
        return Ok(Err(MetaFault::NoVersion));
    };
    if !is_version_three(version) {
        return Ok(Err(MetaFault::Version(version.copy()?)));
    }
    let Some(kind) = kind_of(reply) else {
        return Ok(Err(MetaFault::BadType(type_text(alloc, reply)?)));
    };
    let Some(models) = models_of(reply) else {
        return Ok(Err(MetaFault::NoModels));
    };
    match models_from(alloc, kind, models)? {
        Ok(models) => Ok(Ok(Meta { kind, models })),
        Err(fault) => Ok(Err(fault)),
    }
}

fn is_version_three(version: &Text) -> bool
    ensures { result ≡ is_version_three version.now }
{
    match version.bytes() {
        [b'3'] => true,
        [b'3', b'.', ..] => true,
        _ => false,
    }
}

fn kind_of(reply: &Json) -> Option<SimKind>
    ensures { result ≡ kind_in reply.now }
{
    match reply.member("type") {
        Some(tree) => match tree.as_text() {
            Some(word) => SimKind::named(word.bytes()),
            None => None,
        },
        None => Some(SimKind::TimeBased),
    }
}

fn type_text(alloc: Global, reply: &Json) -> Result<Text, Mem>
    ensures { IfOk result (λ text. text ≡ type_text reply.now) }
{
    match reply.text_under("type") {
        Some(text) => text.copy(),
        None => Text::of(alloc, ""),
    }
}

// The models, where they are an object of at most so many members.
fn models_of(reply: &Json) -> Option<&Members<Json>>
    ensures same { option_map (λ ms. ms.now) result ≡ models_in reply.now }
    ensures few { IfSome result (λ ms. length ms.now ≤ most_models) }
{
    match reply.member("models") {
        Some(tree) => few_members_of(tree),
        None => None,
    }
}

fn few_members_of(tree: &Json) -> Option<&Members<Json>>
    ensures same { option_map (λ ms. ms.now) result
        ≡ option_and_then few_enough (members_in tree.now) }
    ensures few { IfSome result (λ ms. length ms.now ≤ most_models) }
{
    match tree.as_object() {
        Some(members) => few_enough(members),
        None => None,
    }
}

fn few_enough(members: &Members<Json>) -> Option<&Members<Json>>
    ensures same { option_map (λ ms. ms.now) result ≡ few_enough members.now }
    ensures few { IfSome result (λ ms. length ms.now ≤ most_models) }
{
    if members.len() <= MOST_MODELS as usize {
        Some(members)
    } else {
        None
    }
}

// The models, or the first fault among them in byte order.
fn models_from(
    alloc: Global,
    kind: SimKind,
    described: &Members<Json>,
) -> Result<Result<List<ModelMeta>, MetaFault>, Mem>
    requires { length described.now ≤ most_models }
    ensures told { IfOk result (λ models. models ≡ all_well (map (model_in kind) described.now)) }
    ensures listed { IfOk result (λ found. IfOk found (λ models. IsListed models)) }
    ensures known { IfOk result (λ found. IfOk found (λ models. Each (HasKnownAttrs kind) models)) }
{
    let mut models = List::new(alloc);
    let entries = described.entries();
    for (name, tree) in entries {
        match model_of(alloc, kind, name, tree)? {
            Ok(model) => models.push(model)?,
            Err(fault) => return Ok(Err(fault)),
        }
    }
    Ok(Ok(models))
}
