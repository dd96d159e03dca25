//! The start of a scenario's simulators.
ghost use Rattle.std.specs.Prelude.{◌≡◌, ◌⊎◌, ℕ, ◌<◌, ◌≤◌, ◌^◌, List, [], ◌∷◌, ◌++◌, None, length, IfSome, IfOk, IfErr, OnOk, OnErr};
ghost use Rattle.std.specs.Result.{result_err};
ghost use Rattle.mk_base.specs.Lists.{IsIn};
ghost use Rattle.mk_outside.specs.Counts.{HasRisen};
ghost use Rattle.mk_outside.specs.Asked.{Asked, Asks};
ghost use Rattle.mk_outside.specs.Logs.{Adds};
ghost use Rattle.mk_launch.specs.Words.{template_words};
ghost use Rattle.mk_launch.specs.Ready.{IsPrepared};
ghost use Rattle.mk_launch.specs.Asking.{AsksBy, IsCommand};
ghost use Rattle.mk_launch.specs.Starts.{AllStarted};
ghost use Rattle.mk_launch.specs.inner.Starting.{BegunAs, BegunAsks, BegunLink, CanStart, begun_asks, without_place};
ghost use Rattle.mk_scenario.specs.declared.parts.Begin.TheVariants as begins;
ghost use Rattle.mk_launch.specs.declared.faults.StartFault.TheVariants as faults;

use crate::faults::{LaunchFault, StartFault};
use crate::template::words;
use mk_base::{LinkNo, List, Mem, SimNo, Text};
use mk_outside::{Fleet, Listened, Start, Started};
use mk_scenario::{Begin, Scenario};
use std::alloc::Global;

// What came of one simulator's start: the place of its link, or none within the program.
#[derive(Clone, Copy)]
pub enum Begun {
    Place(Option<LinkNo>),
    Failed,
    Mem,
}

/// Starts the simulators in their order, and puts a place for each into `links`, which has none before: its link, or
/// `None` within the program. Before each start by a command it listens, and makes the command's words for that port:
/// over a fleet that tells what it was asked, `asked` says so.
///
/// At a fault the places are those of the simulators before the one at which it stopped, which `Failed` names, and
/// their links stay open. Where there was no memory for a link's place, that link has been closed.
pub fn start_all<F: Fleet>(
    alloc: Global,
    scenario: &Scenario,
    fleet: &mut F,
    links: &mut List<Option<LinkNo>>,
) -> Result<(), StartFault>
    requires few { length scenario.now.sims < 2 ^ 32 }
    requires prepared { (kinds : List (List ℕ)) × IsPrepared scenario.now kinds }
    requires empty { links.old ≡ [] }
    ensures started { AllStarted result scenario.now.sims
        (record { started = F.started fleet.old; links = F.open_links fleet.old })
        (record { started = F.started fleet.new; links = F.open_links fleet.new }) links.new }
    ensures cause { IfErr result (λ fault. (fault ≡ faults.Mem)
        ⊎ HasRisen (F.faults fleet.old) (F.faults fleet.new)) }
    ensures count { F.faults fleet.old ≤ F.faults fleet.new }
    ensures asked { (asks : List Asked) × Asks asks (F.asked fleet.old) (F.asked fleet.new)
        × AsksBy result scenario.now.sims asks }
    ensures logged { Adds [] (F.log fleet.old) (F.log fleet.new) }
{
    for (i, sim) in scenario.sims.as_slice().iter().enumerate() {
        match begin(alloc, &sim.begin, fleet) {
            Begun::Place(place) => match put_place(fleet, links, place) {
                Ok(()) => (),
                Err(Mem) => return Err(StartFault::Mem),
            },
            Begun::Failed => return Err(StartFault::Failed(SimNo(i as u32))),
            Begun::Mem => return Err(StartFault::Mem),
        }
    }
    Ok(())
}

// Puts the place of a simulator's link; where it finds no memory the link is closed.
fn put_place<F: Fleet>(
    fleet: &mut F,
    links: &mut List<Option<LinkNo>>,
    place: Option<LinkNo>,
) -> Result<(), Mem>
    requires { IfSome place (λ link. IsIn link (F.open_links fleet.old)) }
    ensures put { OnOk result ((links.new ≡ links.old ++ place ∷ [])
        × (F.open_links fleet.new ≡ F.open_links fleet.old)) }
    ensures closed { OnErr result ((links.new ≡ links.old)
        × (F.open_links fleet.new ≡ without_place place (F.open_links fleet.old))) }
    ensures same_count { F.started fleet.new ≡ F.started fleet.old }
    ensures count { F.faults fleet.old ≤ F.faults fleet.new }
    ensures same_asked { F.asked fleet.new ≡ F.asked fleet.old }
    ensures logged { Adds [] (F.log fleet.old) (F.log fleet.new) }
{
    match links.push(place) {
        Ok(()) => Ok(()),
        Err(_) => {
            close_place(fleet, place);
            Err(Mem)
        }
    }
}

// Closes the link of a place, if it has one.
fn close_place<F: Fleet>(fleet: &mut F, place: Option<LinkNo>)
    requires { IfSome place (λ link. IsIn link (F.open_links fleet.old)) }
    ensures closed { F.open_links fleet.new ≡ without_place place (F.open_links fleet.old) }
    ensures same_count { F.started fleet.new ≡ F.started fleet.old }
    ensures count { F.faults fleet.old ≤ F.faults fleet.new }
    ensures same_asked { F.asked fleet.new ≡ F.asked fleet.old }
    ensures logged { Adds [] (F.log fleet.old) (F.log fleet.new) }
{
    match place {
        Some(link) => fleet.close(link),
        None => (),
    }
}

// Begins a simulator.
fn begin<F: Fleet>(alloc: Global, begin: &Begin, fleet: &mut F) -> Begun
    requires { CanStart begin.now }
    ensures begun { BegunAs result begin.now
        (record { started = F.started fleet.old; links = F.open_links fleet.old })
        (record { started = F.started fleet.new; links = F.open_links fleet.new }) }
    ensures cause { result ≡ Begun.Failed → HasRisen (F.faults fleet.old) (F.faults fleet.new) }
    ensures count { F.faults fleet.old ≤ F.faults fleet.new }
    ensures asked { (asks : List Asked) × Asks asks (F.asked fleet.old) (F.asked fleet.new)
        × BegunAsks result begin.now asks }
    ensures logged { Adds [] (F.log fleet.old) (F.log fleet.new) }
{
    match begin {
        Begin::Command(template) => begin_command(alloc, template, fleet),
        Begin::Connect(port) => begin_link(fleet, &Start::Connect(*port)),
        Begin::Local(_) => Begun::Place(None),
    }
}

// Begins a simulator by a command, which connects to the port at which the fleet listens.
fn begin_command<F: Fleet>(alloc: Global, template: &Text, fleet: &mut F) -> Begun
    requires { result_err (template_words template.now) ≡ None }
    ensures begun { BegunLink result
        (record { started = F.started fleet.old; links = F.open_links fleet.old })
        (record { started = F.started fleet.new; links = F.open_links fleet.new }) }
    ensures cause { result ≡ Begun.Failed → HasRisen (F.faults fleet.old) (F.faults fleet.new) }
    ensures count { F.faults fleet.old ≤ F.faults fleet.new }
    ensures asked { (asks : List Asked) × Asks asks (F.asked fleet.old) (F.asked fleet.new)
        × BegunAsks result (begins.Command template.now) asks }
    ensures logged { Adds [] (F.log fleet.old) (F.log fleet.new) }
{
    match fleet.listen() {
        Listened::At(port) => match command(alloc, template, port) {
            Ok(start) => begin_link(fleet, &start),
            Err(_) => Begun::Mem,
        },
        Listened::Failed => Begun::Failed,
        Listened::Mem => Begun::Mem,
    }
}

// The start by a command, for this port.
fn command(alloc: Global, template: &Text, port: u16) -> Result<Start, Mem>
    requires { result_err (template_words template.now) ≡ None }
    ensures { IfOk result (λ start. IsCommand template.now port start) }
{
    match words(alloc, template, port) {
        Ok(words) => Ok(Start::Command(words)),
        Err(LaunchFault::Mem) => Err(Mem),
        Err(_) => unreachable!(),
    }
}

// Starts a link.
fn begin_link<F: Fleet>(fleet: &mut F, start: &Start) -> Begun
    ensures begun { BegunLink result
        (record { started = F.started fleet.old; links = F.open_links fleet.old })
        (record { started = F.started fleet.new; links = F.open_links fleet.new }) }
    ensures cause { result ≡ Begun.Failed → HasRisen (F.faults fleet.old) (F.faults fleet.new) }
    ensures count { F.faults fleet.old ≤ F.faults fleet.new }
    ensures asks { Asks (begun_asks result start.now) (F.asked fleet.old) (F.asked fleet.new) }
    ensures logged { Adds [] (F.log fleet.old) (F.log fleet.new) }
{
    match fleet.start(start) {
        Started::Link(link) => Begun::Place(Some(link)),
        Started::Failed => Begun::Failed,
        Started::Mem => Begun::Mem,
    }
}
