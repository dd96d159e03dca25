//! The end of a run's links.
ghost use Rattle.std.specs.Prelude.{◌≡◌, ◌≤◌, [], IfSome, option_to_list};
ghost use Rattle.mk_base.specs.Lists.{Each, IsIn};
ghost use Rattle.mk_outside.specs.Logs.{Adds};
ghost use Rattle.mk_launch.specs.Starts.{links_in};
ghost use Rattle.mk_run_links.specs.Places.{AreDistinct, without_all};

use mk_base::LinkNo;
use mk_outside::Fleet;

/// Closes the links at these places. It may wait for others.
pub fn close_all<F: Fleet>(links: &[Option<LinkNo>], fleet: &mut F)
    requires open { Each (λ link. IsIn link (F.open_links fleet.old)) (links_in links.now) }
    requires distinct { AreDistinct links.now }
    ensures closed { F.open_links fleet.new
        ≡ without_all (links_in links.now) (F.open_links fleet.old) }
    ensures same_count { F.started fleet.new ≡ F.started fleet.old }
    ensures count { F.faults fleet.old ≤ F.faults fleet.new }
    ensures logged { Adds [] (F.log fleet.old) (F.log fleet.new) }
{
    for place in links {
        close_place(place, fleet);
    }
}

// Closes the link of a place, if it has one.
fn close_place<F: Fleet>(place: &Option<LinkNo>, fleet: &mut F)
    requires { IfSome place.now (λ link. IsIn link (F.open_links fleet.old)) }
    ensures closed { F.open_links fleet.new
        ≡ without_all (option_to_list place.now) (F.open_links fleet.old) }
    ensures same_count { F.started fleet.new ≡ F.started fleet.old }
    ensures count { F.faults fleet.old ≤ F.faults fleet.new }
    ensures logged { Adds [] (F.log fleet.old) (F.log fleet.new) }
{
    match place {
        Some(link) => fleet.close(*link),
        None => {}
    }
}
