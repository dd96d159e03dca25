//! What a tree is, looked at one level deep.
ghost use Rattle.std.specs.Prelude.{◌≡◌, option_map};
ghost use Rattle.mk_base.specs.Trees.{is_null, bool_in, whole_in, text_in, items_in, items_of, members_in, members_of, is_object};

use crate::json::Json;
use crate::list::List;
use crate::members::Members;
use crate::text::Text;

impl Json {
    /// Whether the tree is `null`.
    pub fn is_null(&self) -> bool
        ensures { result ≡ is_null self.now }
    {
        match self {
            Json::Null => true,
            Json::Bool(_) => false,
            Json::Whole(_) => false,
            Json::Odd => false,
            Json::Text(_) => false,
            Json::List(_) => false,
            Json::Object(_) => false,
        }
    }

    /// The truth value; `None` where the tree is something else.
    pub fn as_bool(&self) -> Option<bool>
        ensures { result ≡ bool_in self.now }
    {
        match self {
            Json::Null => None,
            Json::Bool(b) => Some(*b),
            Json::Whole(_) => None,
            Json::Odd => None,
            Json::Text(_) => None,
            Json::List(_) => None,
            Json::Object(_) => None,
        }
    }

    /// The whole number; `None` where the tree is something else.
    pub fn as_whole(&self) -> Option<i128>
        ensures { result ≡ whole_in self.now }
    {
        match self {
            Json::Null => None,
            Json::Bool(_) => None,
            Json::Whole(n) => Some(*n),
            Json::Odd => None,
            Json::Text(_) => None,
            Json::List(_) => None,
            Json::Object(_) => None,
        }
    }

    /// The text; `None` where the tree is something else.
    pub fn as_text(&self) -> Option<&Text>
        ensures { option_map (λ t. t.now) result ≡ text_in self.now }
    {
        match self {
            Json::Null => None,
            Json::Bool(_) => None,
            Json::Whole(_) => None,
            Json::Odd => None,
            Json::Text(text) => Some(text),
            Json::List(_) => None,
            Json::Object(_) => None,
        }
    }

    /// The list; `None` where the tree is something else.
    pub fn as_list(&self) -> Option<&List<Json>>
        ensures { option_map (λ l. l.now) result ≡ items_in self.now }
    {
        match self {
            Json::Null => None,
            Json::Bool(_) => None,
            Json::Whole(_) => None,
            Json::Odd => None,
            Json::Text(_) => None,
            Json::List(items) => Some(items),
            Json::Object(_) => None,
        }
    }

    /// The members of the object; `None` where the tree is something else.
    pub fn as_object(&self) -> Option<&Members<Json>>
        ensures { option_map (λ m. m.now) result ≡ members_in self.now }
    {
        match self {
            Json::Null => None,
            Json::Bool(_) => None,
            Json::Whole(_) => None,
            Json::Odd => None,
            Json::Text(_) => None,
            Json::List(_) => None,
            Json::Object(members) => Some(members),
        }
    }

    /// The items of the list, none where the tree is something else.
    pub fn items(&self) -> &[Json]
        ensures { result.now ≡ items_of self.now }
    {
        match self.as_list() {
            Some(items) => items.as_slice(),
            None => &[],
        }
    }

    /// The members of the object, in byte order of their names; none where the tree is something else.
    pub fn members(&self) -> &[(Text, Json)]
        ensures { result.now ≡ members_of self.now }
    {
        match self.as_object() {
            Some(members) => members.entries(),
            None => &[],
        }
    }

    /// Whether the tree is an object.
    pub fn is_object(&self) -> bool
        ensures { result ≡ is_object self.now }
    {
        match self {
            Json::Null => false,
            Json::Bool(_) => false,
            Json::Whole(_) => false,
            Json::Odd => false,
            Json::Text(_) => false,
            Json::List(_) => false,
            Json::Object(_) => true,
        }
    }
}
