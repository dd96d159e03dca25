//! A reply to `init` that has metadata.
use crate::texts::tree_of;
use mk_base::{Json, List, SimKind, Text};
use mk_meta::{ModelMeta, read_meta};
use std::alloc::Global;

const REPLY: &str =
    "{\"api_version\":\"3.1\",\"type\":\"hybrid\",\"extra_methods\":[\"f\"],\"models\":{\"b\":{\"public\":false,\"params\":[],\"attrs\":[\"x\",\"y\"],\"any_inputs\":true,\"trigger\":[\"z\"],\"non-persistent\":[\"y\"]},\"B\":{\"public\":true,\"params\":[\"q\",\"p\"],\"attrs\":[\"in\"],\"any_inputs\":false,\"trigger\":[\"in\"]}}}";

fn are(texts: &List<Text>, wanted: &[&str]) -> bool {
    for (text, want) in texts.as_slice().iter().zip(wanted) {
        if text.as_str() != *want {
            return false;
        }
    }
    texts.len() == wanted.len()
}

// A model: its name, whether it is public, whether it takes any input; its parameters, its attributes, those that
// trigger, those that aren't persistent.
type Model = (
    &'static str,
    bool,
    bool,
    &'static [&'static str],
    &'static [&'static str],
    &'static [&'static str],
    &'static [&'static str],
);

const MODELS: [Model; 2] = [
    ("B", true, false, &["q", "p"], &["in"], &["in"], &[]),
    ("b", false, true, &[], &["x", "y"], &["z"], &["y"]),
];

fn is_model(model: &ModelMeta, want: &Model) -> bool {
    model.name.as_str() == want.0
        && model.public == want.1
        && model.any_inputs == want.2
        && are(&model.params, want.3)
        && are(&model.attrs, want.4)
        && are(&model.trigger, want.5)
        && are(&model.events, want.6)
}

// Whether these are the models that the reply says.
fn are_models(models: &[ModelMeta]) -> bool {
    for (model, want) in models.iter().zip(&MODELS) {
        if !is_model(model, want) {
            return false;
        }
    }
    models.len() == 2
}

fn is_read(alloc: Global, reply: &Json) -> bool {
    match read_meta(alloc, reply) {
        Ok(meta) => meta.kind == SimKind::Hybrid && are_models(meta.models.as_slice()),
        Err(_) => false,
    }
}

#[test]
fn the_models_of_a_reply_stand_in_byte_order_of_their_names(rt: HostRuntime) {
    assert!(rt; is_read(rt.alloc(), &tree_of(rt.alloc(), REPLY)));
}
