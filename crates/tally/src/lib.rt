// This crate carries out a list of events as the list entry does, and adds it to the day's figures.

#![tactic(auto)]

pub mod totals;

ghost use Rattle.std.specs.Prelude.{◌≡◌, ◌+◌, ◌*◌, ◌/◌, ◌≤◌, length};
ghost use mathlib.Core.List.{flatten};
ghost use Rattle.octets.specs.Span.{put};
ghost use Rattle.rules.specs.Valid as table;
ghost use Rattle.rules.specs.Run.{after, answered, answer_record, run, answer_records};
ghost use Rattle.rules.specs.Records.{circuits, most_circuits, most_events, event_size, event_in, event_at, answer_size, records};
ghost use Rattle.route.specs.Entries.{events_to};
ghost use Rattle.tally.specs.Shares.{shares, holders, events_add, list_adds};
ghost use Rattle.tally.specs.Room.{HasRoomFor};
ghost use Rattle.tally.specs.Entry.{added, number_of, figures_number, figures_table, figures_answers, figures_totals};

use events::EVENT_SIZE;
use rules::number;
use rules::part::Side;
use rules::verdict::Verdict;
use table::Record;
use totals::{FIGURES, Totals};

// A list is refused by this number where no list can be added.
pub const TOO_MANY_LISTS: u8 = 60;

// A list is refused where a length is wrong, or where no list can be added.
#[derive(Clone, Copy, PartialEq, Eq, Debug)]
pub enum Refused {
    WrongLength,
    TooManyLists,
}

impl From<Refused> for u8 {
    ghost use Rattle.std.specs.Prelude.{◌≡◌};
    ghost use Rattle.tally.specs.Entry.{refused_number};

    ghost from_gives = { λ refusal number. number ≡ refused_number refusal };

    fn from(refusal: Refused) -> u8 {
        match refusal {
            Refused::WrongLength => number::WRONG_LENGTH,
            Refused::TooManyLists => TOO_MANY_LISTS,
        }
    }
}

// Counts the circuits of a table that have a holder.
#[tactic(auto, unfolding(crate::specs::Shares::holders, rules::specs::Records::records))]
pub fn holders(t: &[u8]) -> u64
    requires { circuits t.now ≤ most_circuits }
    ensures count { result ≡ holders records t.now }
    ensures most { result ≤ most_circuits }
{
    let mut k: u64 = 0;
    for number in 0..table::count(t) {
        k += u64::from(Record { table: t, number }.present(Side::Holder));
    }
    k
}

// Applies event k to a table, writes its answer as answer k, and counts it. The buffers are passed one by one, as in `route::apply`; and that the
// totals have room is a clause, since it is used up from event to event, which no type of theirs could say.
fn step(t: &mut [u8], es: &[u8], places: &mut [u8], totals: &mut Totals, k: usize, verdict: Verdict)
    requires t_bound { circuits t.old ≤ most_circuits }
    requires event_size_in_bounds { event_size * k + event_size ≤ length es.now }
    requires answer_size_in_bounds { answer_size * k + answer_size ≤ length places.old }
    requires verdict_value { verdict ≡ table.verdict records t.old }
    requires has_room_for { HasRoomFor 1 totals.old }
    ensures table { t.new ≡ after records t.old (event_in es.now k) }
    ensures answers { places.new
        ≡ put places.old (answer_size * k) (answer_record records t.old (event_in es.now k)) }
    ensures totals { totals.new
        ≡ added (shares (event_at (event_in es.now k)) (answered records t.old (event_in es.now k)))
        totals.old }
{
    let loser = route::apply(t, es, places, k, verdict);
    let e = events::read(es, k);
    let answer = events::answer_at(places, k);
    let lost = events::is_lost(events::lost_call(answer)).then_some(loser);
    totals::count(totals, e.kind, e.mark.level, events::number(answer), lost);
}

// Applies the first n events one after another, and counts each. The table was looked at once, before them. It is a loop beside that of `route`, and
// not one with a closure: a closure that changes the totals would have to say in its own contract all that `step` says in its.
fn each(t: &mut [u8], es: &[u8], places: &mut [u8], totals: &mut Totals, n: usize, verdict: Verdict)
    requires t_bound { circuits t.old ≤ most_circuits }
    requires events_in_bounds { event_size * n ≤ length es.now }
    requires answers_in_bounds { answer_size * n ≤ length places.old }
    requires verdict_value { verdict ≡ table.verdict records t.old }
    requires has_room_for { HasRoomFor n totals.old }
    ensures table { t.new ≡ run records t.old (events_to es.now n) }
    ensures answers { places.new
        ≡ put places.old 0 (flatten (answer_records records t.old (events_to es.now n))) }
    ensures totals { totals.new
        ≡ added (events_add records t.old (events_to es.now n)) totals.old }
{
    for k in 0..n {
        step(t, es, places, totals, k, verdict);
    }
}

// Carries out a list of n events, and adds it to the totals.
fn carry_out(t: &mut [u8], es: &[u8], places: &mut [u8], totals: &mut Totals, n: usize)
    requires t_bound { circuits t.old ≤ most_circuits }
    requires events_in_bounds { event_size * n ≤ length es.now }
    requires answers_in_bounds { answer_size * n ≤ length places.old }
    requires n_le_most_events { n ≤ most_events }
    requires has_room_for { HasRoomFor most_events totals.old }
    ensures table { t.new ≡ run records t.old (events_to es.now n) }
    ensures answers { places.new
        ≡ put places.old 0 (flatten (answer_records records t.old (events_to es.now n))) }
    ensures totals { totals.new
        ≡ added (list_adds records t.old (events_to es.now n)) totals.old }
{
    let verdict = validity::verdict(t);
    let start = holders(t);
    each(t, es, places, totals, n, verdict);
    totals::add_list(totals, start, holders(t));
}

// Applies a list of events and adds it to the totals, or writes nothing where it is refused.
pub fn list(t: &mut [u8], es: &[u8], places: &mut [u8], totals: &mut [u64]) -> Result<(), Refused>
    ensures number { number_of result ≡ figures_number t.old es.now places.old totals.old }
    ensures table { t.new ≡ figures_table t.old es.now places.old totals.old }
    ensures answers { places.new
        ≡ figures_answers t.old es.now places.old totals.old }
    ensures totals { totals.new
        ≡ figures_totals t.old es.now places.old totals.old }
{
    if !route::list_lengths(t.len(), es.len(), places.len()) {
        return Err(Refused::WrongLength);
    }
    let Some(totals) = totals.as_mut_array::<FIGURES>() else {
        return Err(Refused::WrongLength);
    };
    if !totals::has_room(totals) {
        return Err(Refused::TooManyLists);
    }
    carry_out(t, es, places, totals, es.len() / EVENT_SIZE);
    Ok(())
}
