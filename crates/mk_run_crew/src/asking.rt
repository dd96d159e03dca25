//! The requests of a handshake to simulators within the program, which answer at once.
ghost use Rattle.std.specs.Prelude.{◌≡◌, [], true, false, Ok, IfOk, IfErr, OnOk};
ghost use Rattle.mk_local.specs.Calls.{IsCallReplied};
ghost use Rattle.mk_setup.specs.Replies.{after_reply, arrival};
ghost use Rattle.mk_run_crew.specs.Attempts.{Attempt};
ghost use Rattle.mk_run_crew.specs.inner.Asking.{Answers, AnswersNot, Asks, AsksFail, ComesTo, GoesSoFar, IsHalting, IsUntaken, StepsNot, StepsTo, setup_halt};
ghost use Rattle.mk_run_crew.specs.Seen.{is_here};
ghost use Rattle.mk_run_crew.specs.Wholly.{IsWithinHalt};
ghost use Rattle.mk_run_crew.specs.declared.halt.Halt.TheVariants as halts;

use crate::crew::Crew;
use crate::halt::Halt;
use mk_base::SimNo;
use mk_local::Registry;
use mk_plan::{Call, Message, Plan};
use mk_setup::{Setup, SetupFault, SetupNext, replies_make};

// How far a handshake comes without a link.
#[derive(Drop)]
pub enum Stage {
    // The next request, which has this id, goes to this simulator, and that isn't within the program.
    Linked { sim: SimNo, call: Call, id: u64 },
    // All are made, and this is the plan.
    Planned(Plan),
}

// The halt that a fault of the handshake is.
fn setup_halt(fault: SetupFault) -> Halt
    ensures { result ≡ setup_halt fault }
{
    match fault {
        SetupFault::Mem => Halt::Mem,
        other => Halt::Setup(other),
    }
}

// Hands a setup the message that came to its request.
pub fn take_answer(setup: &mut Setup, from: SimNo, message: &Message) -> Result<(), Halt>
    ensures ok { OnOk result (after_reply setup.old (arrival from message.now) ≡ Ok setup.new) }
    ensures err { IfErr result (λ h. IsUntaken h from message.now setup.old) }
    ensures cause { IfErr result IsWithinHalt }
{
    match setup.arrive(from, message) {
        Ok(()) => Ok(()),
        Err(fault) => Err(setup_halt(fault)),
    }
}

impl Crew {
    // Makes a request to a simulator within the program, and gives its reply.
    fn ask_within(
        &mut self,
        kinds: &Registry,
        sim: SimNo,
        call: &Call,
        id: u64,
    ) -> Result<(SimNo, Message), Halt>
        requires here { is_here self.old sim.0 ≡ true }
        requires replied { IsCallReplied call.now }
        ensures ok { IfOk result (λ r. Asks sim.0 call.now id r.0.0 r.1 [] self.old self.new) }
        ensures err { IfErr result (λ h. (h ≡ halts.Mem)
            × AsksFail h sim.0 call.now id [] self.old self.new) }
        ensures same_channels { self.new.channels ≡ self.old.channels }
        ensures same_places { self.new.places ≡ self.old.places }
    {
        let message = self.within.answer_call(kinds, sim, call, id)?;
        Ok((sim, message))
    }

    // Makes the request that a setup has asked for to a simulator within the program, and hands it the reply.
    fn make_request_within(
        &mut self,
        kinds: &Registry,
        setup: &mut Setup,
        sim: SimNo,
        call: &Call,
        id: u64,
    ) -> Result<(), Halt>
        requires here { is_here self.old sim.0 ≡ true }
        requires replied { IsCallReplied call.now }
        ensures ok { OnOk result
            (Answers sim.0 call.now id [] self.old self.new setup.old setup.new) }
        ensures err { IfErr result
            (λ h. AnswersNot ⊥ h sim.0 call.now id [] self.old self.new setup.old) }
        ensures cause { IfErr result IsWithinHalt }
        ensures same_channels { self.new.channels ≡ self.old.channels }
        ensures same_places { self.new.places ≡ self.old.places }
    {
        let (from, message) = self.ask_within(kinds, sim, call, id)?;
        take_answer(setup, from, &message)
    }

    // Makes the next request of a setup, if it goes to a simulator within the program; or gives it, or the plan, once
    // all are made.
    fn step(&mut self, kinds: &Registry, setup: &mut Setup) -> Result<Option<Stage>, Halt>
        requires { setup.old.asked ≡ false }
        ensures ok { IfOk result (λ stage. StepsTo stage self.old self.new setup.old setup.new) }
        ensures err { IfErr result (λ h. StepsNot h self.old self.new setup.old) }
        ensures cause { IfErr result IsWithinHalt }
        ensures same_channels { self.new.channels ≡ self.old.channels }
        ensures same_places { self.new.places ≡ self.old.places }
    {
        match setup.next() {
            Ok(SetupNext::Request { sim, call, id }) => {
                if !self.within.has(sim) {
                    return Ok(Some(Stage::Linked { sim, call, id }));
                }
                match self.make_request_within(kinds, setup, sim, &call, id) {
                    Ok(()) => Ok(None),
                    Err(halt) => Err(halt),
                }
            }
            Ok(SetupNext::Wait) => unreachable!(),
            Ok(SetupNext::Ready(plan)) => Ok(Some(Stage::Planned(plan))),
            Err(fault) => Err(setup_halt(fault)),
        }
    }

    // Makes the requests of a setup to simulators within the program, one after another, up to the first to another
    // simulator, and gives that one; or the plan, once all are made.
    pub(crate) fn set_up_within(
        &mut self,
        kinds: &Registry,
        setup: &mut Setup,
    ) -> Result<Stage, Halt>
        requires { (A : Attempt) × GoesSoFar A self.old setup.old }
        ensures ok { IfOk result (λ stage. (A : Attempt) → GoesSoFar A self.old setup.old
            → ComesTo A stage self.new setup.new) }
        ensures err { IfErr result (λ h. (A : Attempt) → GoesSoFar A self.old setup.old
            → IsHalting A ⊥ h self.new) }
        ensures cause { IfErr result IsWithinHalt }
        ensures same_channels { self.new.channels ≡ self.old.channels }
        ensures same_places { self.new.places ≡ self.old.places }
    {
        replies_make();
        'asking: loop {
            match self.step(kinds, setup) {
                Ok(Some(stage)) => return Ok(stage),
                Ok(None) => {}
                Err(halt) => return Err(halt),
            }
        }
    }
}
