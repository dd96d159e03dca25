//! Lines of messages and of steps that are written plainly, read without a parser of JSON. What isn't plain, and each
//! fault, is left to the parser.
ghost use Rattle.std.specs.Prelude.{◌≡◌, ◌<◌, ◌^◌, ◌++◌, ◌∷◌, [], Ok, IfOk, IfSome, length, decimal};
ghost use Rattle.mk_base.specs.Texts.{list_text};
ghost use Rattle.mk_message.specs.Messages.{tested};
ghost use Rattle.mk_record_read.specs.Fields.{misformed};
ghost use Rattle.mk_record_read.specs.Lines.{arrival_in, asked_in};
ghost use Rattle.mk_record_read.specs.Reading.{items_read};
ghost use Rattle.mk_record_read.specs.Seen.{came};
ghost use Rattle.mk_record_read.specs.Steps.{IsKnown};
ghost use Rattle.mk_record_read.specs.inner.PlainLines.{AreSmall};

use crate::lines::step_asked;
use crate::saved::{Arrival, Asked};
use mk_base::{Mem, SimNo};
use mk_message_plain::{Known, before, behind, plain, unsigned};
use mk_plan::Plan;
use std::alloc::Global;

// The message of a plain line `[SIM,MESSAGE]` whose simulator is one of the plan's. `None` says nothing.
pub fn plain_arrival(
    alloc: Global,
    known: &mut Known,
    plan: &Plan,
    text: &[u8],
) -> Result<Option<Arrival>, Mem>
    ensures ok { IfOk result (λ o. IfSome o
        (λ a. tested misformed (items_read text.now) (arrival_in plan.now) ≡ Ok (came a))) }
    ensures known { IfOk result (λ o. IfSome o (λ a. IsKnown plan.now (came a))) }
{
    let Some((number, payload)) = sim_and_payload(text) else {
        return Ok(None);
    };
    let Some(sim) = place_in(plan.sims.len(), number) else {
        return Ok(None);
    };
    match plain(alloc, known, payload)? {
        Some(message) => Ok(Some(Arrival {
            sim: SimNo(sim),
            message,
        })),
        None => Ok(None),
    }
}

fn sim_and_payload(text: &[u8]) -> Option<(u64, &[u8])>
    ensures text { IfSome result (λ p. text.now ≡ list_text (decimal p.0 ∷ p.1.now ∷ [])) }
    ensures small { IfSome result (λ p. p.0 < 10 ^ 18) }
{
    let digits = behind(text, b'[')?;
    let (number, comma) = unsigned(digits)?;
    let rest = behind(comma, b',')?;
    let payload = before(rest, b']')?;
    Some((number, payload))
}

// The number of one of so many simulators.
fn place_in(count: usize, number: u64) -> Option<u32>
    ensures same { IfSome result (λ n. n ≡ number) }
    ensures there { IfSome result (λ n. n < count) }
{
    if number >= count as u64 {
        return None;
    }
    match u32::try_from(number) {
        Ok(place) => Some(place),
        Err(_) => None,
    }
}

// The step of a plain line `[SIM,TIME,TIER,MAX_ADVANCE]` whose simulator is one of the plan's, and whose numbers are
// within their limits. `None` says nothing.
pub fn plain_asked(plan: &Plan, before: u64, text: &[u8]) -> Option<Asked>
    ensures { IfSome result
        (λ a. tested misformed (items_read text.now) (asked_in plan.now before) ≡ Ok a) }
{
    let (number, time, tier, max_advance) = four_numbers(text)?;
    let sim = place_in(plan.sims.len(), number)?;
    match step_asked(before, sim, time as i128, tier as i128, max_advance as i128) {
        Ok(asked) => Some(asked),
        Err(_) => None,
    }
}

fn four_numbers(text: &[u8]) -> Option<(u64, u64, u64, u64)>
    ensures text { IfSome result (λ p. text.now
        ≡ list_text (decimal p.0 ∷ decimal p.1 ∷ decimal p.2 ∷ decimal p.3 ∷ [])) }
    ensures small { IfSome result (λ p. AreSmall (p.0 ∷ p.1 ∷ p.2 ∷ p.3 ∷ [])) }
{
    let digits = behind(text, b'[')?;
    let (first, second_comma) = unsigned(digits)?;
    let (second, third_comma) = next_number(second_comma)?;
    let (third, fourth_comma) = next_number(third_comma)?;
    let (fourth, end) = next_number(fourth_comma)?;
    match end {
        [b']'] => Some((first, second, third, fourth)),
        _ => None,
    }
}

// The number behind a comma, and what stands behind its digits.
fn next_number(text: &[u8]) -> Option<(u64, &[u8])>
    ensures text { IfSome result (λ p. text.now ≡ 44 ∷ decimal p.0 ++ p.1.now) }
    ensures small { IfSome result (λ p. p.0 < 10 ^ 18) }
{
    let digits = behind(text, b',')?;
    unsigned(digits)
}
