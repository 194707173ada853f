// Events read from their octets, answers written in theirs and read again. No other code knows where their fields stand.

#![tactic(auto)]

ghost use Rattle.std.specs.Prelude.{◌≡◌, ◌+◌, ◌*◌, ◌≤◌, length};
ghost use Rattle.std.specs.Bool.{then_some};
ghost use Rattle.octets.specs.Span.{span, put};
ghost use Rattle.rules.specs.Records.{event_size, event_in, mark_in, reference_in, event_at, answer_size, answer_octets, answer_in, answer_number, answer_cause, answer_detail, lost_call, lost_reservation, is_lost, lost_reference};

use rules::answer::Answer;
use rules::event::Event;
use rules::level::Level;
use rules::mark::Mark;
use rules::part::{REFERENCE_SIZE, Reference};
use rules::{outcome, parameter};

// An event has 16 octets.
pub const EVENT_SIZE: usize = 16;

// An answer has 16 octets.
pub const ANSWER_SIZE: usize = 16;

// A list has at most 4,096 events.
pub const MOST_EVENTS: usize = 4096;

// Reads the level and the domain in the parameter of the event that stands from octet `o` on.
fn mark(es: &[u8], o: usize) -> Mark
    requires { o + event_size ≤ length es.now }
    ensures { result ≡ mark_in (span es.now o event_size) }
{
    Mark {
        level: Level::in_parameter(es[o + 1]),
        domain: octets::read(es, o + 2),
    }
}

// Reads the reference of the event that stands from octet `o` on, its spare bits as 0.
fn reference(es: &[u8], o: usize) -> Reference
    requires { o + event_size ≤ length es.now }
    ensures { result ≡ reference_in (span es.now o event_size) }
{
    let [a, b, c, d, last]: Reference = octets::read(es, o + 7);
    [a, b, c, d, last % 64]
}

// Reads what event k says, of those that stand one after another.
pub fn read(es: &[u8], k: usize) -> Event
    requires { event_size * k + event_size ≤ length es.now }
    ensures { result ≡ event_at (event_in es.now k) }
{
    let o = EVENT_SIZE * k;
    Event {
        kind: es[o],
        mark: mark(es, o),
        lfb: parameter::lfb_in(es[o + 1]),
        parameterless: octets::is_zero::<6>(es, o + 1),
        referenceless: octets::is_zero::<5>(es, o + 7),
        reference: reference(es, o),
        clock: octets::read_number(es, o + 12),
    }
}

// Gives the record of an answer. It is made whole before it is written: in pieces written one after another, an event of a mixed list took
// 430 instructions at 16 circuits, over its budget of 400.
fn record(a: Answer) -> [u8; ANSWER_SIZE]
    ensures { result ≡ answer_octets a }
{
    let cause = outcome::cause(a.number);
    let [low, high] = a.detail.to_le_bytes();
    let p = a.call.reference;
    let q = a.reservation.reference;
    let c = a.call.flag();
    let r = a.reservation.flag();
    [
        a.number, cause, low, high, c, p[0], p[1], p[2], p[3], p[4], r, q[0], q[1], q[2], q[3],
        q[4],
    ]
}

// Writes answer k, after those before it.
pub fn write(answers: &mut [u8], k: usize, a: Answer)
    requires { answer_size * k + answer_size ≤ length answers.old }
    ensures { answers.new ≡ put answers.old (answer_size * k) (answer_octets a) }
{
    octets::write(answers, ANSWER_SIZE * k, &record(a));
}

// Gives answer k, of those that stand one after another.
pub fn answer_at(answers: &[u8], k: usize) -> [u8; ANSWER_SIZE]
    requires { answer_size * k + answer_size ≤ length answers.now }
    ensures { result ≡ answer_in answers.now k }
{
    octets::read(answers, ANSWER_SIZE * k)
}

// Gives the number of an answer.
pub fn number(a: [u8; ANSWER_SIZE]) -> u8
    ensures { result ≡ answer_number a }
{
    a[0]
}

// Gives the cause in an answer.
pub fn cause(a: [u8; ANSWER_SIZE]) -> u8
    ensures { result ≡ answer_cause a }
{
    a[1]
}

// Gives the detail of an answer.
pub fn detail(a: [u8; ANSWER_SIZE]) -> u16
    ensures { result ≡ answer_detail a }
{
    u16::from_le_bytes(octets::read(&a, 2))
}

// A lost party stands in an answer as its flag and its reference, six octets, of which `is_lost` and `lost_reference` (rules/specs/Records) speak;
// `lost` gives them as an Option.
pub type Lost = [u8; 1 + REFERENCE_SIZE];

// Gives the holder that an answer names as lost.
pub fn lost_call(a: [u8; ANSWER_SIZE]) -> Lost
    ensures { result ≡ lost_call a }
{
    octets::read(&a, 4)
}

// Gives the reservation that an answer names as lost.
pub fn lost_reservation(a: [u8; ANSWER_SIZE]) -> Lost
    ensures { result ≡ lost_reservation a }
{
    octets::read(&a, 10)
}

// Tells whether a party in an answer was lost: its flag is 1.
pub fn is_lost(lost: Lost) -> bool
    ensures { result ≡ is_lost lost }
{
    lost[0] == 1
}

// Gives the reference of a party that was lost.
pub fn lost_reference(lost: Lost) -> Reference
    ensures { result ≡ lost_reference lost }
{
    octets::read(&lost, 1)
}

// Gives the reference of a party in an answer, if it was lost.
pub fn lost(party: Lost) -> Option<Reference>
    ensures { result ≡ then_some (is_lost party) (lost_reference party) }
{
    is_lost(party).then_some(lost_reference(party))
}
