//! Where each parked link stands among them, so that it is found without going through them.
ghost use Rattle.std.specs.Prelude.{◌≡◌, ◌<◌, ◌≤◌, ◌++◌, ◌∷◌, [], length, Some, OnOk, slice_get, vec_capacity};
ghost use Rattle.mk_poll.specs.Links.{lifted, times_in};
ghost use Rattle.mk_poll.specs.inner.Links.{AreAt, AreBelow, AreMore, IsSpotSet, spot_at};

use mk_base::{LinkNo, Mem};

// The spot of a link; `None` where it isn't parked.
pub fn spot_of(spots: &[Option<usize>], link: LinkNo) -> Option<usize>
    ensures { result ≡ spot_at spots.now link }
{
    match spots.get(link.0 as usize) {
        Some(spot) => *spot,
        None => None,
    }
}

// Makes room for the spot of a link.
pub fn make_spot(spots: &mut Vec<Option<usize>>, link: LinkNo) -> Result<(), Mem>
    ensures more { AreMore spots.old.items spots.new.items }
    ensures ok { OnOk result (link.0 < length spots.new.items) }
{
    while spots.len() <= link.0 as usize {
        spots.push(None)?;
    }
    Ok(())
}

// Sets the spot of a link.
fn set_spot(spots: &mut Vec<Option<usize>>, link: LinkNo, spot: Option<usize>)
    requires { link.0 < length spots.old.items }
    ensures { IsSpotSet link spot spots.old.items spots.new.items }
{
    spots[link.0 as usize] = spot;
}

// Parks a link.
pub fn park(parked: &mut Vec<LinkNo>, spots: &mut Vec<Option<usize>>, link: LinkNo)
    requires room { length parked.old.items < vec_capacity parked.old }
    requires free { times_in link parked.old.items ≡ 0 }
    requires below { link.0 < length spots.old.items }
    requires at { AreAt (spot_at spots.old.items) parked.old.items }
    ensures parked { parked.new.items ≡ parked.old.items ++ link ∷ [] }
    ensures at { AreAt (spot_at spots.new.items) parked.new.items }
    ensures count { length spots.new.items ≡ length spots.old.items }
    ensures room { vec_capacity parked.new ≡ vec_capacity parked.old }
{
    set_spot(spots, link, Some(parked.len()));
    parked.push_reserved(link);
}

// Takes the parked link at this place off. The last one stands there instead.
pub fn lift(parked: &mut Vec<LinkNo>, spots: &mut Vec<Option<usize>>, link: LinkNo, place: usize)
    requires there { slice_get parked.old.items place ≡ Some link }
    requires once { times_in link parked.old.items ≤ 1 }
    requires below { AreBelow (length spots.old.items) parked.old.items }
    requires at { AreAt (spot_at spots.old.items) parked.old.items }
    ensures lifted { parked.new.items ≡ lifted link parked.old.items }
    ensures at { AreAt (spot_at spots.new.items) parked.new.items }
    ensures count { length spots.new.items ≡ length spots.old.items }
    ensures room { vec_capacity parked.new ≡ vec_capacity parked.old }
{
    let Some(last) = parked.pop() else {
        return;
    };
    set_spot(spots, link, None);
    if place < parked.len() {
        parked[place] = last;
        set_spot(spots, last, Some(place));
    }
}
