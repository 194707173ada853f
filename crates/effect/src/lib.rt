// This crate makes of a table what an outcome says.

#![tactic(auto)]

ghost use Rattle.std.specs.Prelude.{◌≡◌, cond, ◌<◌};
ghost use Rattle.rules.specs.Circuit.{overdue, made};
ghost use Rattle.rules.specs.Run.{sweep_to};
ghost use Rattle.rules.specs.Run as run;
ghost use Rattle.rules.specs.Records.{circuits, circuit_at, put_circuit, records};
ghost use Rattle.rules.specs.Outcome.{does};
ghost use Rattle.rules.specs.Ready.{Ready};

use rules::event::Event;
use rules::outcome::{Act, Deed, Outcome};
use table::Record;

// Makes circuit i anew by an act, and writes it whole. What writes takes the table and a place, and no `Record`, as in `table`.
fn renew(t: &mut [u8], e: Event, a: Act, i: usize)
    requires { i < circuits t.old }
    ensures { t.new ≡ put_circuit t.old i (made e a (circuit_at t.old i)) }
{
    let record = Record {
        table: t,
        number: i,
    };
    let c = record.circuit().made(e, a);
    table::store(t, i, c);
}

// Carries out an act on circuit i, whose record is in order: an act that changes both parts writes the circuit whole, any
// other only the part that it changes.
fn act(t: &mut [u8], e: Event, a: Act, i: usize)
    requires { Ready t.old (does a i) }
    ensures { t.new ≡ put_circuit t.old i (made e a (circuit_at t.old i)) }
{
    let record = Record {
        table: t,
        number: i,
    };
    let c = record.circuit().made(e, a);
    // Each act has an arm of its own: with equal arms joined by `|`, an event of a mixed list took 411 instructions at 16 circuits, over its budget of 400.
    match a {
        Act::Seize => table::store(t, i, c),
        Act::Reserve => table::store_reservation(t, i, c.reservation, c.clock),
        Act::Release => table::store_holder(t, i, c.holder, c.ringing),
        Act::Cancel => table::store_reservation(t, i, c.reservation, c.clock),
        Act::Unmark => table::store(t, i, c),
        Act::Answered => table::store_holder(t, i, c.holder, c.ringing),
    }
}

// Removes the reservation on circuit i if it is overdue.
fn relieve(t: &mut [u8], e: Event, i: usize)
    requires { i < circuits t.old }
    ensures table { t.new
        ≡ cond (overdue e.clock (circuit_at t.old i))
        (put_circuit t.old i (made e Act.Cancel (circuit_at t.old i)))
        t.old }
{
    let record = Record {
        table: t,
        number: i,
    };
    if record.overdue(e.clock) {
        renew(t, e, Act::Cancel, i);
    }
}

// Removes every reservation that is overdue.
#[tactic(auto, using(crate::proofs::Swept::swept_on, crate::proofs::Swept::swept_count))]
fn sweep(t: &mut [u8], e: Event)
    ensures { t.new ≡ sweep_to records t.old e (circuits t.old) }
{
    for i in 0..table::count(t) {
        relieve(t, e, i);
    }
}

// A refusal changes nothing, an act changes its circuit alone, and a clock event removes what is overdue.
#[tactic(auto, unfolding(rules::specs::Run::effect, rules::specs::Records::records))]
pub fn effect(t: &mut [u8], e: Event, o: Outcome)
    requires { Ready t.old o }
    ensures { t.new ≡ run.effect records t.old e o }
{
    match o {
        Err(_) => {}
        Ok(Deed::Do(a, i)) => act(t, e, a, i),
        Ok(Deed::Clock) => sweep(t, e),
    }
}
