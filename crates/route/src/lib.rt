// This crate applies one event, or a list of events, to a table: it decides, answers, and changes the table.

#![tactic(auto)]

ghost use Rattle.std.specs.Prelude.{◌≡◌, ◌&&◌, ◌+◌, ◌*◌, ◌/◌, ◌%◌, ◌≤◌, length, eqb, is_ok};
ghost use mathlib.Core.List.{flatten};
ghost use Rattle.octets.specs.Span.{put};
ghost use Rattle.rules.specs.Valid as table;
ghost use Rattle.rules.specs.Run.{after, answered, answer_record, run, answer_records};
ghost use Rattle.rules.specs.Records.{circuits, most_circuits, table_length, event_size, event_in, answer_size, list_length, records};
ghost use Rattle.route.specs.Entries.{event_lengths, event_number_of, event_number, event_table, event_answer, events_to, list_number_of, list_number, list_table, list_answers};

use events::{ANSWER_SIZE, EVENT_SIZE, MOST_EVENTS};
use rules::level::Level;
use rules::number;
use rules::verdict::Verdict;

// An event or a list is refused where a length is wrong.
#[derive(Clone, Copy, PartialEq, Eq, Debug)]
pub struct WrongLength;

impl From<WrongLength> for u8 {
    ghost use Rattle.std.specs.Prelude.{◌≡◌};
    ghost use Rattle.rules.specs.Numbers.{wrong_length};

    ghost from_gives = { λ refusal number. number ≡ wrong_length };

    fn from(_refusal: WrongLength) -> u8 {
        number::WRONG_LENGTH
    }
}

// Applies event k to a table, writes its answer as answer k, and gives the level under which a holder stood that was lost, which no answer has.
// The verdict on the table is known. The answer names the losers, so it is made of the table as it was; each step reads the circuit that it
// needs anew, since the compiler then keeps none in memory. The buffers are passed one by one, since of those lent to be written a struct would
// have to say in each clause what the caller's end as.
pub fn apply(t: &mut [u8], es: &[u8], answers: &mut [u8], k: usize, verdict: Verdict) -> Level
    requires t_bound { circuits t.old ≤ most_circuits }
    requires event_size_in_bounds { event_size * k + event_size ≤ length es.now }
    requires answer_size_in_bounds { answer_size * k + answer_size ≤ length answers.old }
    requires verdict_value { verdict ≡ table.verdict records t.old }
    ensures loser { result ≡ (answered records t.old (event_in es.now k)).call.mark.level }
    ensures table { t.new ≡ after records t.old (event_in es.now k) }
    ensures answers { answers.new
        ≡ put answers.old (answer_size * k) (answer_record records t.old (event_in es.now k)) }
{
    let e = events::read(es, k);
    let outcome = decision::outcome_of(t, e, verdict);
    let answer = answer::answered(t, e, outcome);
    effect::effect(t, e, outcome);
    events::write(answers, k, answer);
    answer.call.mark.level
}

// Tells whether the lengths of a table, an event and its answer are right.
fn event_lengths(t: usize, e: usize, a: usize) -> bool
    ensures { result ≡ table_length t && (eqb e event_size && eqb a answer_size) }
{
    table::right_length(t) && e == EVENT_SIZE && a == ANSWER_SIZE
}

// Applies one event, and gives the number that stands in its answer; where a length is wrong nothing is written.
pub fn event(t: &mut [u8], e: &[u8], a: &mut [u8]) -> Result<u8, WrongLength>
    ensures number { event_number_of result ≡ event_number t.old e.now a.old }
    ensures lengths { is_ok result ≡ event_lengths t.old e.now a.old }
    ensures table { t.new ≡ event_table t.old e.now a.old }
    ensures answer { a.new ≡ event_answer t.old e.now a.old }
{
    if !event_lengths(t.len(), e.len(), a.len()) {
        return Err(WrongLength);
    }
    let verdict = validity::verdict(t);
    apply(t, e, a, 0, verdict);
    Ok(events::number(events::answer_at(a, 0)))
}

// Tells whether the lengths of a table, its events and their answer places are right.
#[tactic(auto, unfolding(rules::specs::Records::list_length))]
pub fn list_lengths(t: usize, es: usize, places: usize) -> bool
    ensures { result ≡ table_length t && list_length es places }
{
    let n = es / EVENT_SIZE;
    table::right_length(t) && es % EVENT_SIZE == 0 && n <= MOST_EVENTS && places == ANSWER_SIZE * n
}

// Applies the first n events one after another. The table was looked at once, before them, since no event changes the verdict on it. The
// buffers are passed one by one, as in `apply`.
fn each(t: &mut [u8], es: &[u8], places: &mut [u8], n: usize, verdict: Verdict)
    requires t_bound { circuits t.old ≤ most_circuits }
    requires events_in_bounds { event_size * n ≤ length es.now }
    requires answers_in_bounds { answer_size * n ≤ length places.old }
    requires verdict_value { verdict ≡ table.verdict records t.old }
    ensures table { t.new ≡ run records t.old (events_to es.now n) }
    ensures answers { places.new
        ≡ put places.old 0 (flatten (answer_records records t.old (events_to es.now n))) }
{
    for k in 0..n {
        apply(t, es, places, k, verdict);
    }
}

// Applies a list of events; where a length is wrong nothing is written.
pub fn list(t: &mut [u8], es: &[u8], places: &mut [u8]) -> Result<(), WrongLength>
    ensures number { list_number_of result ≡ list_number t.old es.now places.old }
    ensures table { t.new ≡ list_table t.old es.now places.old }
    ensures answers { places.new ≡ list_answers t.old es.now places.old }
{
    if !list_lengths(t.len(), es.len(), places.len()) {
        return Err(WrongLength);
    }
    let verdict = validity::verdict(t);
    each(t, es, places, es.len() / EVENT_SIZE, verdict);
    Ok(())
}
