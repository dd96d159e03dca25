//! What a request asks for.
use mk_base::{Json, List, Members, Text};

/// What a simulator asks for in its step, as it stands in the request's argument (mosaik 3, asynchronous requests).
#[derive(Clone, Copy)]
pub enum Asked<'a> {
    /// `get_data`: under each entity's full id a list of its attributes.
    Get(&'a Members<Json>),
    /// `set_data`: under each source's full id, each destination's full id and each attribute a value.
    Set(&'a Members<Json>),
    /// `get_related_entities` of the full id of one entity.
    Related(&'a Text),
    /// `get_related_entities` of the full ids of several entities.
    RelatedOfEach(&'a List<Json>),
}
