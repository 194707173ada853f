// This crate says what is answered to an event.

#![tactic(auto)]

ghost use Rattle.std.specs.Prelude.{◌≡◌, ◌≤◌};
ghost use Rattle.rules.specs.Search.{count_to};
ghost use Rattle.rules.specs.Circuit.{nobody, overdue};
ghost use Rattle.rules.specs.Answer.{may_lose, no_loser, losers, anothers, answer_of};
ghost use Rattle.rules.specs.Records.{circuits, circuit_at, most_circuits};
ghost use Rattle.rules.specs.Outcome.{does};
ghost use Rattle.rules.specs.Ready.{Ready};

use rules::answer::Answer;
use rules::circuit::Circuit;
use rules::event::Event;
use rules::number;
use rules::outcome::{Act, Deed, Outcome};
use rules::part::{Part, Reference};
use table::Record;

// Makes an answer that names a reservation as lost, if somebody has it, and no holder.
fn may_lose(number: u8, detail: u16, reservation: Part) -> Answer
    ensures { result ≡ may_lose number detail reservation }
{
    let call = Part::nobody();
    Answer {
        number,
        detail,
        call,
        reservation,
    }
}

// Makes an answer that names no loser.
fn no_loser(number: u8, detail: u16) -> Answer
    ensures { result ≡ no_loser number detail }
{
    may_lose(number, detail, Part::nobody())
}

// Makes an answer that names whoever was lost: its number is `none` where nobody is, and `some` where a holder or a reservation is.
fn losers(none: u8, some: u8, detail: u16, call: Part, reservation: Part) -> Answer
    ensures { result ≡ losers none some detail call reservation }
{
    Answer {
        number: if call.present || reservation.present {
            some
        } else {
            none
        },
        detail,
        call,
        reservation,
    }
}

// Gives a reservation if it is of another call than the one with this reference, else nobody.
fn another(reference: Reference, p: Part) -> Part
    ensures { result ≡ anothers reference p }
{
    if p.is_of(reference) {
        Part::nobody()
    } else {
        p
    }
}

// Gives the answer to an act on circuit i, which was c.
#[tactic(auto, unfolding(rules::specs::Answer::answer_of))]
fn acted(e: Event, a: Act, i: u16, c: Circuit) -> Answer
    ensures { result ≡ answer_of (λ _. c) 0 e (does a i) }
{
    let reference = e.reference;
    match a {
        Act::Seize => losers(
            number::SEIZED,
            number::SEIZED_WITH_LOSS,
            i,
            c.holder,
            another(reference, c.reservation),
        ),
        Act::Reserve => losers(
            number::RESERVED,
            number::RESERVED_WITH_LOSS,
            i,
            Part::nobody(),
            c.reservation,
        ),
        Act::Release => no_loser(number::RELEASED, i),
        Act::Cancel => no_loser(number::CANCELLED, i),
        Act::Unmark => may_lose(number::UNMARKED, i, c.reservation),
        Act::Answered => no_loser(number::NOW_ANSWERED, i),
    }
}

// Counts the reservations that are overdue. That a table has at most 256 circuits is a clause, here and in the crates above, and no type: the table is
// lent from step to step as the slice that the caller has, and a type would be made of it anew at each. A count of what is true of records is three
// lines, here, in `tally` and in `references`: one that took the test as a closure would give one type of number, and each of the three wants another.
fn removed(t: &[u8], clock: u32) -> u16
    requires { circuits t.now ≤ most_circuits }
    ensures { result ≡ count_to (λ i. overdue clock (circuit_at t.now i)) (circuits t.now) }
{
    let mut k: u16 = 0;
    for number in 0..table::count(t) {
        k += u16::from(Record { table: t, number }.overdue(clock));
    }
    k
}

// Gives the answer to what was decided, from the table before it is changed.
#[tactic(auto, using(crate::proofs::Acts::alone), unfolding(rules::specs::Answer::answer_of))]
pub fn answered(t: &[u8], e: Event, o: Outcome) -> Answer
    requires t_bound { circuits t.now ≤ most_circuits }
    requires ready { Ready t.now o }
    ensures { result ≡ answer_of (circuit_at t.now) (circuits t.now) e o }
{
    match o {
        Err(refusal) => no_loser(u8::from(refusal), refusal.detail()),
        Ok(Deed::Do(a, number)) => {
            let circuit = Record { table: t, number }.circuit();
            acted(e, a, number as u16, circuit)
        }
        Ok(Deed::Clock) => no_loser(number::CLOCK_TAKEN, removed(t, e.clock)),
    }
}
