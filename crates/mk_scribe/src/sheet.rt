//! The lines of a record that are made and aren't in the draft yet.
ghost use Rattle.std.specs.Prelude.{◌≡◌, ◌≢◌, ℕ, [], true};
ghost use Rattle.std.specs.List.{list_all};
ghost use Rattle.mk_record_write.specs.Writable.{is_writable};
ghost use Rattle.mk_scribe.specs.inner.Steps.{Adds, Begins, Counts, GoesOn, IsGivenUp};

use mk_base::Mem;
use mk_plan::{Entry, Plan};
use mk_record_write::{line_count, put_entries, put_plan};
use std::alloc::Global;

/// How far a record is: no line of it was made; lines were; or there was no memory for one, and no more are made.
#[derive(Clone, Copy, Debug, PartialEq, Eq)]
pub enum Writing {
    Unbegun,
    Begun,
    Lost,
}

/// The lines of a record that aren't in the draft yet, how many lines of entries were made, and how far the record is.
#[derive(Drop)]
pub struct Sheet {
    alloc: Global,
    pub lines: Vec<u8>,
    pub count: usize,
    pub writing: Writing,
}

impl Sheet {
    // A sheet without a line.
    pub fn new(alloc: Global) -> Sheet
        ensures none { result.lines.items ≡ [] }
        ensures unbegun { result.writing ≡ Writing.Unbegun }
        ensures zero { result.count ≡ 0 }
    {
        Sheet {
            alloc,
            lines: Vec::new(alloc),
            count: 0,
            writing: Writing::Unbegun,
        }
    }

    // Makes the lines of these entries, and before the first ones those of the plan.
    pub fn add(&mut self, plan: &Plan, fresh: &[Entry])
        requires { list_all is_writable fresh.now ≡ true }
        ensures { Adds self.old plan.now fresh.now self.new }
    {
        self.begin(plan);
        self.go_on(fresh);
    }

    // Makes the lines of the plan, where none were made.
    fn begin(&mut self, plan: &Plan)
        ensures { Begins self.old plan.now self.new }
    {
        match self.writing {
            Writing::Unbegun => match put_plan(self.alloc, &mut self.lines, plan) {
                Ok(()) => self.writing = Writing::Begun,
                Err(Mem) => self.give_up(),
            },
            Writing::Begun | Writing::Lost => {}
        }
    }

    // Makes the lines of entries after those of a plan.
    fn go_on(&mut self, fresh: &[Entry])
        requires { list_all is_writable fresh.now ≡ true }
        ensures { GoesOn self.old fresh.now self.new }
    {
        match self.writing {
            Writing::Begun => match put_entries(self.alloc, &mut self.lines, fresh) {
                Ok(()) => self.count_on(line_count(fresh)),
                Err(Mem) => self.give_up(),
            },
            Writing::Unbegun | Writing::Lost => {}
        }
    }

    // Counts lines of entries; a count that leaves the range of its type is given up.
    fn count_on(&mut self, more: usize)
        ensures { Counts self.old more self.new }
    {
        match self.count.checked_add(more) {
            Some(count) => self.count = count,
            None => self.give_up(),
        }
    }

    // Lets go of all lines, and makes no more.
    fn give_up(&mut self)
        ensures { IsGivenUp self.new }
    {
        self.lines.clear();
        self.writing = Writing::Lost;
    }
}
