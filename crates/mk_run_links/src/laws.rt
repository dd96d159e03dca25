//! A law of the places that a start of all simulators leaves.
ghost use Rattle.mk_run_links.specs.Places.{PlacesAreDistinct};

/// The places that a start of all simulators leaves have distinct links, as `Links::new` and `close_all` need them.
pub fn places_are_distinct()
    ensures { PlacesAreDistinct }
{}
