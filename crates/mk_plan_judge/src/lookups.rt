//! Finds the values of wants in the data of a reply, one want after the other: a name is looked for first where it
//! stands if wants and data are in the same order, and only else by a search.
ghost use Rattle.std.specs.Prelude.{◌≡◌, true, Some, option_map, option_and_then};
ghost use Rattle.mk_base.specs.Trees.{member};
ghost use Rattle.mk_plan.specs.Turns.{part_for, value_for};
ghost use Rattle.mk_plan_judge.specs.inner.Parts.{HasPart};

use mk_base::{Json, Near, Text};
use mk_plan::Want;

// How far the wants have been looked up: the entity of the last one, what the data give it, and the places in the data,
// and in what they give the entity, behind what was found last.
#[derive(Drop)]
pub struct Lookups<'a, 'w> {
    content: &'a Json,
    eid: Option<&'w Text>,
    part: Option<&'a Json>,
    next_part: usize,
    next_value: usize,
}

impl<'a, 'w> Lookups<'a, 'w> {
    // Before the first want.
    pub fn new(content: &'a Json) -> Lookups<'a, 'w>
        ensures data { result.content.now ≡ content.now }
        ensures kept { HasPart result }
    {
        Lookups {
            content,
            eid: None,
            part: None,
            next_part: 0,
            next_value: 0,
        }
    }

    // What the data give the want.
    pub fn value_for(&mut self, want: &'w Want) -> Option<&'a Json>
        requires { HasPart self.old }
        ensures value { option_map (λ v. v.now) result
            ≡ value_for self.old.content.now want.now }
        ensures data { self.new.content ≡ self.old.content }
        ensures kept { HasPart self.new }
    {
        self.turn_to(&want.eid);
        self.value_of(&want.attr)
    }

    // What the data give the entity of the want.
    pub fn part_for(&mut self, want: &'w Want) -> Option<&'a Json>
        requires { HasPart self.old }
        ensures value { option_map (λ v. v.now) result
            ≡ part_for self.old.content.now want.now }
        ensures data { self.new.content ≡ self.old.content }
        ensures kept { HasPart self.new }
    {
        self.turn_to(&want.eid);
        self.part
    }

    // Makes this entity the one whose values are looked up.
    fn turn_to(&mut self, eid: &'w Text)
        requires { HasPart self.old }
        ensures part { option_map (λ v. v.now) self.new.part
            ≡ member eid.now self.old.content.now }
        ensures data { self.new.content ≡ self.old.content }
        ensures kept { HasPart self.new }
    {
        if self.is_at(eid) {
            return;
        }
        let found = find(self.content, eid, self.next_part);
        self.eid = Some(eid);
        self.part = found.value;
        self.next_part = found.next;
        self.next_value = 0;
    }

    // Whether the last want was of this entity.
    fn is_at(&self, eid: &Text) -> bool
        ensures { result ≡ true → option_map (λ e. e.now) self.now.eid ≡ Some eid.now }
    {
        match self.eid {
            Some(last) => last.bytes() == eid.bytes(),
            None => false,
        }
    }

    // What the data give this attribute of the entity.
    fn value_of(&mut self, attr: &Text) -> Option<&'a Json>
        ensures value { option_map (λ v. v.now) result
            ≡ option_and_then (member attr.now) (option_map (λ v. v.now) self.old.part) }
        ensures data { self.new.content ≡ self.old.content }
        ensures eid { self.new.eid ≡ self.old.eid }
        ensures part { self.new.part ≡ self.old.part }
    {
        match self.part {
            Some(part) => {
                let found = find(part, attr, self.next_value);
                self.next_value = found.next;
                found.value
            }
            None => None,
        }
    }
}

// The member of that name of a tree, which may stand at the place of the guess.
fn find<'a>(tree: &'a Json, name: &Text, guess: usize) -> Near<'a, Json>
    ensures { option_map (λ v. v.now) result.value ≡ member name.now tree.now }
{
    match tree {
        Json::Object(members) => members.get_near(name.bytes(), guess),
        _ => Near {
            value: None,
            next: 0,
        },
    }
}
