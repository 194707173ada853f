// This crate says what is decided of an event over a table: the first refusal that applies, else what is done, and on which circuit.

#![tactic(auto)]

ghost use Rattle.std.specs.Prelude.{◌≡◌, false, ◌≤◌, ◌<◌};
ghost use Rattle.rules.specs.Decision.{on_reservation, blocked, set_up, stands_nowhere, look_ahead, on_holder, cancel};
ghost use Rattle.rules.specs.Choice.{held_by};
ghost use Rattle.rules.specs.Decision as rule;
ghost use Rattle.rules.specs.Valid as table;
ghost use Rattle.rules.specs.Run.{outcome_of};
ghost use Rattle.rules.specs.Records.{circuits, circuit_at, most_circuits, records};
ghost use Rattle.rules.specs.Ready.{Ready};

use rules::event::{Event, Kind};
use rules::outcome::{Act, Deed, Outcome, Refusal};
use rules::parameter;
use rules::part::{Part, Reference, Side};
use rules::verdict::Verdict;
use table::Record;

// Decides a set-up on its own reservation, which stands on circuit i.
#[tactic(auto, unfolding(rules::specs::Decision::on_reservation))]
fn on_reservation(e: Event, reservation: Part, i: usize) -> Outcome
    ensures { result ≡ on_reservation e reservation i }
{
    if e.mark != reservation.mark {
        return Err(Refusal::MarkDiffers);
    }
    Ok(Deed::Do(Act::Seize, i))
}

// Says why a set-up that finds no circuit is refused.
fn blocked(e: Event) -> Refusal
    ensures { result ≡ blocked e }
{
    if e.mark.level.routine() {
        Refusal::NoCircuitForRoutine
    } else {
        Refusal::NoCircuit
    }
}

// Tells whether the call with this reference stands on no circuit, neither as a holder nor as a reserver, in one walk.
#[tactic(auto, using(crate::proofs::Nowhere::nowhere))]
fn stands_nowhere(t: &[u8], reference: Reference) -> bool
    ensures { result ≡ stands_nowhere (circuit_at t.now) (circuits t.now) reference }
{
    !references::stands_below(t, table::count(t), reference)
}

// Decides a set-up by a call that stands somewhere and holds nothing: it has reserved a circuit, so that the refusal is not met.
#[tactic(auto, using(crate::proofs::Named::reserved_below, crate::proofs::Nowhere::holder_refused), unfolding(rules::specs::Decision::set_up))]
fn set_up_reserver(t: &[u8], e: Event) -> Outcome
    requires known { stands_nowhere (circuit_at t.now) (circuits t.now) e.reference ≡ false }
    requires unheld { held_by (circuit_at t.now) (circuits t.now) e.reference ≡ None }
    ensures { result ≡ set_up (circuit_at t.now) (circuits t.now) e }
{
    let number = choice::reserved_by(t, e.reference).ok_or(Refusal::AlreadyThere)?;
    let circuit = Record { table: t, number };
    on_reservation(e, circuit.part(Side::Reservation), number)
}

// Decides a set-up by a call that stands somewhere. The walk for a holder goes first, since it ends where the call holds; one for the reservation that a
// holder has not would go to the last circuit.
#[tactic(auto, unfolding(rules::specs::Decision::set_up))]
fn set_up_known(t: &[u8], e: Event) -> Outcome
    requires { stands_nowhere (circuit_at t.now) (circuits t.now) e.reference ≡ false }
    ensures { result ≡ set_up (circuit_at t.now) (circuits t.now) e }
{
    match choice::held_by(t, e.reference) {
        Some(_) => Err(Refusal::AlreadyThere),
        None => set_up_reserver(t, e),
    }
}

// Decides a set-up. A call that stands nowhere, as most do that ask for a circuit, is told apart by one walk, and the choice is made.
#[tactic(auto, using(crate::proofs::Nowhere::choice_made))]
fn set_up(t: &[u8], e: Event) -> Outcome
    ensures { result ≡ set_up (circuit_at t.now) (circuits t.now) e }
{
    if !stands_nowhere(t, e.reference) {
        return set_up_known(t, e);
    }
    let i = choice::choose(t, e.mark).ok_or(blocked(e))?;
    Ok(Deed::Do(Act::Seize, i))
}

// Decides a look-ahead.
#[tactic(auto, using(octets::proofs::Tests::ways), unfolding(rules::specs::Decision::look_ahead))]
fn look_ahead(t: &[u8], e: Event) -> Outcome
    ensures { result ≡ look_ahead (circuit_at t.now) (circuits t.now) e }
{
    if e.lfb != parameter::LFB_ALLOWED {
        return Err(Refusal::NotAllowed);
    }
    if e.mark.level.routine() {
        return Err(Refusal::ByRoutine);
    }
    if !stands_nowhere(t, e.reference) {
        return Err(Refusal::AlreadyThere);
    }
    let i = choice::choose(t, e.mark).ok_or(Refusal::NoCircuitToReserve)?;
    Ok(Deed::Do(Act::Reserve, i))
}

// Decides an event that does an act on the circuit that its call holds.
#[tactic(auto, unfolding(rules::specs::Decision::on_holder))]
fn on_holder(t: &[u8], e: Event, a: Act) -> Outcome
    ensures { result ≡ on_holder (circuit_at t.now) (circuits t.now) a e }
{
    let i = choice::held_by(t, e.reference).ok_or(Refusal::NotThere)?;
    Ok(Deed::Do(a, i))
}

// Decides a cancel.
#[tactic(auto, unfolding(rules::specs::Decision::cancel))]
fn cancel(t: &[u8], e: Event) -> Outcome
    ensures { result ≡ cancel (circuit_at t.now) (circuits t.now) e }
{
    let i = choice::reserved_by(t, e.reference).ok_or(Refusal::NotThere)?;
    Ok(Deed::Do(Act::Cancel, i))
}

// Decides a well-formed event over a valid table, by the kind of the event.
#[tactic(auto, unfolding(rules::specs::Decision::decision))]
fn decision(t: &[u8], e: Event) -> Outcome
    ensures { result ≡ rule.decision (circuit_at t.now) (circuits t.now) e }
{
    match Kind::of(e.kind) {
        Some(Kind::SetUp) => set_up(t, e),
        Some(Kind::Release) => on_holder(t, e, Act::Release),
        Some(Kind::LookAhead) => look_ahead(t, e),
        Some(Kind::Cancel) => cancel(t, e),
        Some(Kind::NoService) => on_holder(t, e, Act::Unmark),
        Some(Kind::Answered) => on_holder(t, e, Act::Answered),
        Some(Kind::Clock) | None => Ok(Deed::Clock),
    }
}

// Decides an event over a table, of which the verdict is known. Verdict and table are handed in with a clause that ties them, and no type does: it would
// hold the table lent while a later step writes it.
#[tactic(auto, using(crate::proofs::Named::ready, crate::proofs::Named::fault_below), unfolding(rules::specs::Run::outcome_of, rules::specs::Records::records, rules::specs::Valid::valid))]
pub fn outcome_of(t: &[u8], e: Event, verdict: Verdict) -> Outcome
    requires t_bound { circuits t.now ≤ most_circuits }
    requires verdict_value { verdict ≡ table.verdict records t.now }
    ensures outcome { result ≡ outcome_of records t.now e }
    ensures ready { Ready t.now result }
{
    if !e.well_formed() {
        return Err(Refusal::Malformed);
    }
    match verdict {
        Ok(()) => decision(t, e),
        Err(fault) => Err(Refusal::BadRecord(fault.reason, fault.at as u16)),
    }
}
