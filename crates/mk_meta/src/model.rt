//! The tests of a model's description.
ghost use Rattle.std.specs.Prelude.{◌≡◌, None, true, IfOk, Ok, Err, option_map};
ghost use Rattle.mk_meta.specs.Metadata.{first_unknown, model_in, with_known};
ghost use Rattle.mk_meta.specs.inner.Named.{named_unknown};
ghost use Rattle.mk_meta.specs.declared.fault.MetaFault.TheVariants as fault;

use crate::fault::MetaFault;
use crate::meta::ModelMeta;
use crate::texts::{Texts, texts_of};
use crate::trees::{bool_at, bool_or_false, hybrid_texts, texts_at};
use mk_base::{Json, Mem, SimKind, Text};
use std::alloc::Global;

// The model of this name and description, or the first test that it fails.
pub fn model_of(
    alloc: Global,
    kind: SimKind,
    name: &Text,
    tree: &Json,
) -> Result<Result<ModelMeta, MetaFault>, Mem>
    ensures told { IfOk result (λ model. model ≡ model_in kind (name.now, tree.now)) }
    ensures named { IfOk result (λ found. IfOk found (λ model. model.name ≡ name.now)) }
{
    if !tree.is_object() {
        return misdescribed(alloc, name, "");
    }
    let Some(public) = bool_at(tree, "public") else {
        return misdescribed(alloc, name, "public");
    };
    let Some(params) = texts_at(alloc, tree, "params")? else {
        return misdescribed(alloc, name, "params");
    };
    let Some(attrs) = texts_at(alloc, tree, "attrs")? else {
        return misdescribed(alloc, name, "attrs");
    };
    let Some(any_inputs) = bool_or_false(tree, "any_inputs") else {
        return misdescribed(alloc, name, "any_inputs");
    };
    let Some(trigger) = hybrid_texts(alloc, kind, tree, "trigger")? else {
        return misdescribed(alloc, name, "trigger");
    };
    let Some(events) = hybrid_texts(alloc, kind, tree, "non-persistent")? else {
        return misdescribed(alloc, name, "non-persistent");
    };
    let name = name.copy()?;
    let model = ModelMeta {
        name,
        public,
        params,
        attrs,
        any_inputs,
        trigger,
        events,
    };
    with_known(alloc, model)
}

// A model's member isn't what it must be.
fn misdescribed(
    alloc: Global,
    name: &Text,
    member: &str,
) -> Result<Result<ModelMeta, MetaFault>, Mem>
    ensures { IfOk result (λ model. model ≡ Err (fault.Model name.now member.now)) }
{
    Ok(Err(MetaFault::Model(name.copy()?, Text::of(alloc, member)?)))
}

// The model, unless it names an attribute that it doesn't have.
fn with_known(alloc: Global, model: ModelMeta) -> Result<Result<ModelMeta, MetaFault>, Mem>
    ensures told { IfOk result (λ known. known ≡ with_known model) }
    ensures same { IfOk result (λ found. IfOk found (λ known. known ≡ model)) }
{
    if let Some(text) = named_unknown(alloc, &model)? {
        return Ok(Err(MetaFault::TriggerUnknown(model.name.copy()?, text.copy()?)));
    }
    Ok(Ok(model))
}

// The first that the model names and that isn't one of its attributes, in which all names are looked up.
fn named_unknown(alloc: Global, model: &ModelMeta) -> Result<Option<&Text>, Mem>
    ensures { IfOk result (λ unknown. option_map (λ t. t.now) unknown ≡ named_unknown model.now) }
{
    if names_none(model) {
        return Ok(None);
    }
    let attrs = texts_of(alloc, &model.attrs)?;
    let unknown = named_outside(&attrs, model);
    drop(attrs);
    Ok(unknown)
}

// The model names no attributes that have to be its own.
fn names_none(model: &ModelMeta) -> bool
    ensures { result ≡ true → named_unknown model.now ≡ None }
{
    (model.any_inputs || model.trigger.is_empty()) && model.events.is_empty()
}

// The first that the model names and that isn't one of these, which are its attributes.
fn named_outside<'a>(attrs: &Texts, model: &'a ModelMeta) -> Option<&'a Text>
    requires { attrs.now ≡ model.now.attrs }
    ensures { option_map (λ t. t.now) result ≡ named_unknown model.now }
{
    let trigger = if model.any_inputs {
        None
    } else {
        first_other(attrs, model.trigger.as_slice())
    };
    match trigger {
        Some(text) => Some(text),
        None => first_other(attrs, model.events.as_slice()),
    }
}

// The first of the texts that isn't an attribute.
fn first_other<'a>(attrs: &Texts, texts: &'a [Text]) -> Option<&'a Text>
    ensures { option_map (λ t. t.now) result ≡ first_unknown attrs.now texts.now }
{
    for text in texts {
        if !attrs.has(text) {
            return Some(text);
        }
    }
    None
}
