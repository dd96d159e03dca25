//! Links in a vector.
ghost use Rattle.std.specs.Prelude.{◌≡◌, ◌≤◌, vec_capacity};
ghost use Rattle.std.specs.List.{list_any};
ghost use Rattle.mk_base.specs.Links.{same_link, without};
ghost use Rattle.mk_poll.specs.Links.{times_in};

use mk_base::LinkNo;

// The link is among them.
pub fn holds(links: &[LinkNo], link: LinkNo) -> bool
    ensures { result ≡ list_any (λ other. same_link other link) links.now }
{
    links.iter().any(|other| other.0 == link.0)
}

// Takes a link off, if it is there.
fn leave(links: &mut Vec<LinkNo>, link: LinkNo)
    ensures left { links.new.items ≡ without link links.old.items }
    ensures room { vec_capacity links.new ≡ vec_capacity links.old }
{
    links.retain(|other| other.0 != link.0);
}

// Takes a link off that stands at most once. Where it is the last one, the others aren't looked at.
pub fn leave_last(links: &mut Vec<LinkNo>, link: LinkNo)
    requires { times_in link links.old.items ≤ 1 }
    ensures left { links.new.items ≡ without link links.old.items }
    ensures room { vec_capacity links.new ≡ vec_capacity links.old }
{
    let Some(last) = links.pop() else {
        return;
    };
    if last.0 == link.0 {
        return;
    }
    links.push_reserved(last);
    leave(links, link);
}
