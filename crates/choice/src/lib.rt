// This crate searches a route for the circuit that a call with some mark gets, and for the one that a call holds or has reserved.

#![tactic(auto)]

ghost use Rattle.std.specs.Prelude.{◌≡◌, ◌<◌};
ghost use Rattle.rules.specs.Search.{first_to};
ghost use Rattle.rules.specs.Circuit.{part_on, is_of, free, rank};
ghost use Rattle.rules.specs.Records.{circuits, circuit_at};
ghost use Rattle.rules.specs.Choice.{choice, held_by, reserved_by};
ghost use Rattle.table.specs.Record.{circuit_in};
ghost use Rattle.choice.specs.Glance.{above, glanced};

use rules::mark::Mark;
use rules::part::{Reference, Side};
use rules::standing::Standing;
use table::Record;

// A glance at a circuit tells a search that it is free, or takeable and of a rank above the greatest so far, or neither.
#[derive(Clone, Copy)]
enum Glance {
    Free,
    Better(usize),
    NoBetter,
}

// Tells whether a circuit that is not free is better for a call with this mark than one of rank `top`. The cheapest test goes first: the
// level of the part that stands, then its worth; whether the circuit is preemptable, and the domain, which is five octets, are asked only
// where the circuit would be better.
fn weighed(circuit: Record, by: Mark, top: usize) -> Glance
    ensures { result ≡ above top (rank by (circuit_in circuit.entry)) }
{
    let level = circuit.level();
    if !by.level.higher(level) {
        return Glance::NoBetter;
    }
    let worth = Standing::worth(circuit.present(Side::Holder), level);
    if worth <= top {
        return Glance::NoBetter;
    }
    if circuit.standing().takeable(by) {
        Glance::Better(worth)
    } else {
        Glance::NoBetter
    }
}

// Looks at a circuit for a call with this mark, where the greatest rank so far is `top`, or 0.
fn look(circuit: Record, by: Mark, top: usize) -> Glance
    ensures { result ≡ glanced top (free (circuit_in circuit.entry)) (rank by (circuit_in circuit.entry)) }
{
    if circuit.present(Side::Reservation) {
        return weighed(circuit, by, top);
    }
    if circuit.present(Side::Holder) {
        weighed(circuit, by, top)
    } else {
        Glance::Free
    }
}

// Finds the circuit that a call with this mark gets: the lowest free one, else the best takeable one. The best one's rank is carried beside it, since
// asked of it anew it would cost each circuit that is looked at.
pub fn choose(t: &[u8], by: Mark) -> Option<usize>
    ensures { result ≡ choice (circuit_at t.now) (circuits t.now) by }
{
    let mut best = None;
    let mut greatest = 0;
    for number in 0..table::count(t) {
        match look(Record { table: t, number }, by, greatest) {
            Glance::Free => return Some(number),
            Glance::Better(rank) => {
                best = Some(number);
                greatest = rank;
            }
            Glance::NoBetter => {}
        }
    }
    best
}

// Finds the circuit on which the call with this reference stands on a side.
fn circuit_of(t: &[u8], reference: Reference, side: Side) -> Option<usize>
    ensures { result ≡ first_to (λ i. is_of reference (part_on side (circuit_at t.now i))) (circuits t.now) }
{
    (0..table::count(t)).find(
        |&number|
            requires { number < circuits t.now }
        { Record { table: t, number }.stands_in(side, reference) },
    )
}

// Finds the circuit that the call with this reference holds.
#[tactic(auto, unfolding(rules::specs::Choice::held_by))]
pub fn held_by(t: &[u8], reference: Reference) -> Option<usize>
    ensures { result ≡ held_by (circuit_at t.now) (circuits t.now) reference }
{
    circuit_of(t, reference, Side::Holder)
}

// Finds the circuit that the call with this reference has reserved.
#[tactic(auto, unfolding(rules::specs::Choice::reserved_by))]
pub fn reserved_by(t: &[u8], reference: Reference) -> Option<usize>
    ensures { result ≡ reserved_by (circuit_at t.now) (circuits t.now) reference }
{
    circuit_of(t, reference, Side::Reservation)
}
