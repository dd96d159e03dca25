//! Ids in order, and where each stands.
ghost use Rattle.std.specs.Prelude.{◌≡◌, ◌++◌, ◌∷◌, [], ℕ, List, is_some, Some, IfOk, OnOk};
ghost use Rattle.std.specs.HashMap.{get_by_text};
ghost use Rattle.std.specs.Map.{update};
ghost use Rattle.mk_base.specs.Lists.{same_text, is_among};
ghost use Rattle.mk_scenario.specs.Places.{place_in};
ghost use Rattle.mk_scenario.specs.inner.Places.{HasPlaces};

use indexmap::IndexMap;
use mk_base::{List, Mem, Text};
use std::alloc::Global;
use std::marker::Model;

// Ids in order, which contracts see as the list of them. Each is found without a walk over the others.
#[derive(Drop)]
pub struct Names {
    ids: List<Text>,
    places: IndexMap<String, u32>,
}

impl Model for Names {
    ghost use Rattle.std.specs.Prelude.{List, ℕ};
    ghost use Rattle.mk_scenario.specs.inner.Places.{HasPlaces};

    ghost Value = { List (List ℕ) };

    ghost view = { λ a. a.ids };

    ghost invariant = { λ a. HasPlaces a.places a.ids };
}

impl Names {
    pub fn new(alloc: Global) -> Names
        ensures { result ≡ [] }
    {
        Names {
            ids: List::new(alloc),
            places: IndexMap::new(alloc),
        }
    }

    // The first place of this id, from 0.
    pub fn place_of(&self, id: &str) -> Option<u32>
        ensures { result ≡ place_in self.now id.now }
    {
        self.places.get(id).copied()
    }

    pub fn has(&self, id: &str) -> bool
        ensures { result ≡ is_among self.now id.now }
    {
        self.place_of(id).is_some()
    }

    // These ids and one more.
    pub fn with(self, alloc: Global, id: &Text) -> Result<Names, Mem>
        ensures { IfOk result (λ names. names ≡ self ++ id.now ∷ []) }
    {
        let Names {
            mut ids,
            mut places,
        } = self;
        add(alloc, &mut ids, &mut places, id)?;
        Ok(Names { ids, places })
    }
}

// Puts one more id to these, and its place under it where it has none.
fn add(
    alloc: Global,
    ids: &mut List<Text>,
    places: &mut IndexMap<String, u32>,
    id: &Text,
) -> Result<(), Mem>
    requires { HasPlaces places.old ids.old }
    ensures ids { OnOk result (ids.new ≡ ids.old ++ id.now ∷ []) }
    ensures places { OnOk result (HasPlaces places.new ids.new) }
{
    place(alloc, places, ids, id)?;
    ids.push(id.copy()?)?;
    Ok(())
}

// Puts the place of the id after these under it, where it has none.
fn place(
    alloc: Global,
    places: &mut IndexMap<String, u32>,
    ids: &List<Text>,
    id: &Text,
) -> Result<(), Mem>
    requires { HasPlaces places.old ids.now }
    ensures { OnOk result (HasPlaces places.new (ids.now ++ id.now ∷ [])) }
{
    if has_place(places, id) {
        return Ok(());
    }
    put(alloc, places, id.as_str(), ids.len())?;
    Ok(())
}

fn has_place(places: &IndexMap<String, u32>, id: &Text) -> bool
    ensures { result ≡ is_some (get_by_text places.now id.now) }
{
    places.get(id.as_str()).copied().is_some()
}

// Puts this place under a text that has none.
fn put(alloc: Global, places: &mut IndexMap<String, u32>, id: &str, place: usize) -> Result<(), Mem>
    ensures { OnOk result ((text : List ℕ)
        → get_by_text places.new text
        ≡ update same_text (get_by_text places.old) id.now (Some place) text) }
{
    match u32::try_from(place) {
        Ok(place) => {
            places.insert(String::from_str(alloc, id)?, place)?;
            Ok(())
        }
        // So many names as have no number aren't kept.
        Err(_) => Err(Mem),
    }
}
