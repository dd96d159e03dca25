//! Whether the arguments of a request have the form of its function.
ghost use Rattle.std.specs.Prelude.{◌≡◌, true, is_some, option_map};
ghost use Rattle.std.specs.List.{list_all};
ghost use Rattle.mk_base.specs.Trees.{text_in, is_datum, is_in_range};
ghost use Rattle.mk_plan.specs.Asks.{argument, form, is_function, is_get, is_related, is_set_data, request_of};
ghost use Rattle.mk_async.specs.Asked.{get_in};
ghost use Rattle.mk_async.specs.inner.Asked.{HasRange, IsAskedRequest};
ghost use Rattle.mk_async.specs.Forms.{are_texts, each_passes, is_destinations, is_texts, is_values};
ghost use Rattle.mk_async.specs.inner.Forms.{get_form, only, related_form, set_form, set_of, texts_form, texts_of};

use crate::request::Asked;
use mk_base::{Json, List, Members, Text};

// Whether there is such a function.
pub fn is_function(name: &Text) -> bool
    ensures { result ≡ is_function name.now }
{
    is_get(name) || is_set(name) || is_related(name)
}

// Whether it is the function that gets data.
fn is_get(name: &Text) -> bool
    ensures { result ≡ is_get name.now }
{
    name.as_str() == "get_data"
}

// Whether it is the function that sets data.
fn is_set(name: &Text) -> bool
    ensures { result ≡ is_set_data name.now }
{
    name.as_str() == "set_data"
}

// Whether it is the function that gives related entities.
fn is_related(name: &Text) -> bool
    ensures { result ≡ is_related name.now }
{
    name.as_str() == "get_related_entities"
}

// The request that the arguments are; `None` exactly where they haven't the form of the function.
pub fn request_of<'a>(name: &Text, args: &'a List<Json>, named: &Json) -> Option<Asked<'a>>
    ensures request { IsAskedRequest result (request_of name.now args.now named.now) }
    ensures range { list_all is_in_range args.now ≡ true → HasRange result }
{
    match argument(args, named) {
        Some(tree) => form(name, tree),
        None => None,
    }
}

// The one positional argument, where there is no keyword argument.
fn argument<'a>(args: &'a List<Json>, named: &Json) -> Option<&'a Json>
    ensures { option_map (λ t. t.now) result ≡ argument args.now named.now }
{
    match named.as_object() {
        Some(members) if members.is_empty() => only(args),
        _ => None,
    }
}

// The request that the argument is, by the function.
fn form<'a>(name: &Text, tree: &'a Json) -> Option<Asked<'a>>
    ensures request { IsAskedRequest result (form name.now tree.now) }
    ensures range { is_in_range tree.now ≡ true → HasRange result }
{
    if is_get(name) {
        get_form(tree)
    } else if is_set(name) {
        set_form(tree)
    } else {
        related_form(tree)
    }
}

// The item of a list of one.
fn only(args: &List<Json>) -> Option<&Json>
    ensures { option_map (λ t. t.now) result ≡ only args.now }
{
    match args.as_slice() {
        [tree] => Some(tree),
        _ => None,
    }
}

// A request to get data, if the argument has its form.
fn get_form(tree: &Json) -> Option<Asked>
    ensures request { IsAskedRequest result (get_form tree.now) }
    ensures range { HasRange result }
{
    match tree.as_object() {
        Some(wants) => get_of(wants),
        None => None,
    }
}

// The same, of an object's members.
fn get_of(wants: &Members<Json>) -> Option<Asked>
    ensures request { IsAskedRequest result (get_in wants.now) }
    ensures range { HasRange result }
{
    if are_wants(wants) {
        Some(Asked::Get(wants))
    } else {
        None
    }
}

// A request to set data, if the argument has its form.
fn set_form(tree: &Json) -> Option<Asked>
    ensures request { IsAskedRequest result (set_form tree.now) }
    ensures range { is_in_range tree.now ≡ true → HasRange result }
{
    match tree.as_object() {
        Some(sources) => set_of(sources),
        None => None,
    }
}

// The same, of an object's members.
fn set_of(sources: &Members<Json>) -> Option<Asked>
    ensures request { IsAskedRequest result (set_of sources.now) }
    ensures range { each_passes is_in_range sources.now ≡ true → HasRange result }
{
    if are_sources(sources) {
        Some(Asked::Set(sources))
    } else {
        None
    }
}

// A request for related entities, if the argument has its form.
fn related_form(tree: &Json) -> Option<Asked>
    ensures request { IsAskedRequest result (related_form tree.now) }
    ensures range { HasRange result }
{
    match tree.as_text() {
        Some(text) => Some(Asked::Related(text)),
        None => texts_form(tree),
    }
}

// A request for the entities that are related to each of a list.
fn texts_form(tree: &Json) -> Option<Asked>
    ensures request { IsAskedRequest result (texts_form tree.now) }
    ensures range { HasRange result }
{
    match tree.as_list() {
        Some(texts) => texts_of(texts),
        None => None,
    }
}

// The same, of a list's items.
fn texts_of(texts: &List<Json>) -> Option<Asked>
    ensures request { IsAskedRequest result (texts_of texts.now) }
    ensures range { HasRange result }
{
    if are_texts(texts) {
        Some(Asked::RelatedOfEach(texts))
    } else {
        None
    }
}

/// Whether each member is a list of texts, as the argument of `get_data` has it.
pub fn are_wants(wants: &Members<Json>) -> bool
    ensures { result ≡ each_passes is_texts wants.now }
{
    wants.entries().iter().all(|want| is_texts(&want.1))
}

// Whether it is a list of texts.
fn is_texts(tree: &Json) -> bool
    ensures { result ≡ is_texts tree.now }
{
    match tree.as_list() {
        Some(texts) => are_texts(texts),
        None => false,
    }
}

// Whether each is a text.
fn are_texts(trees: &List<Json>) -> bool
    ensures { result ≡ are_texts trees.now }
{
    trees.as_slice().iter().all(|tree| is_text(tree))
}

// Whether it is a text.
fn is_text(tree: &Json) -> bool
    ensures { result ≡ is_some (text_in tree.now) }
{
    match tree.as_text() {
        Some(_) => true,
        None => false,
    }
}

/// Whether each member is an object of objects of values, as the argument of `set_data` and the inputs of a step have
/// it.
pub fn are_sources(sources: &Members<Json>) -> bool
    ensures { result ≡ each_passes is_destinations sources.now }
{
    sources
        .entries()
        .iter()
        .all(|source| is_destinations(&source.1))
}

// Whether it is an object whose members are objects of values.
fn is_destinations(tree: &Json) -> bool
    ensures { result ≡ is_destinations tree.now }
{
    match tree.as_object() {
        Some(members) => are_destinations(members),
        None => false,
    }
}

// Whether each member is an object of values.
fn are_destinations(members: &Members<Json>) -> bool
    ensures { result ≡ each_passes is_values members.now }
{
    members.entries().iter().all(|member| is_values(&member.1))
}

// Whether it is an object of values.
fn is_values(tree: &Json) -> bool
    ensures { result ≡ is_values tree.now }
{
    match tree.as_object() {
        Some(members) => are_values(members),
        None => false,
    }
}

// Whether each member is a value that a simulator may give.
fn are_values(members: &Members<Json>) -> bool
    ensures { result ≡ each_passes is_datum members.now }
{
    members.entries().iter().all(|member| member.1.is_datum())
}
