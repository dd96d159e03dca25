//! A model of a simulator.

use mk_base::{SimKind, SimNo, Text};
use mk_meta::Texts;

/// A model of a simulator of this type: whether it takes any input, its attributes, those that trigger and those that
/// are events, each looked up by its name.
#[derive(Drop)]
pub struct SimModel {
    pub sim: SimNo,
    pub kind: SimKind,
    pub name: Text,
    pub any_inputs: bool,
    pub attrs: Texts,
    pub trigger: Texts,
    pub events: Texts,
}
