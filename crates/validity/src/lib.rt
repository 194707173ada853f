// The check of a table finds its first fault, and gives its reason and its record. Each record is first looked at part by part, which is quick
// and enough where every party stands under a precedence; the reasons are gone through, in their order, only where that finds something.

#![tactic(auto)]

ghost use Rattle.std.specs.Prelude.{◌≡◌, ◌&&◌};
ghost use Rattle.rules.specs.Fields.{point_code_ok};
ghost use Rattle.rules.specs.Valid.{if_present, held_under, reserved_under, levels_ok, fields_ok, pair_ok, record_verdict, records_to, parts_to};
ghost use Rattle.rules.specs.Valid as rule;
ghost use Rattle.rules.specs.Verdict.{fault};
ghost use Rattle.rules.specs.Records.{circuits, flags_at, first_octets, records, checked};
ghost use Rattle.table.specs.Record.{circuit_in};
ghost use Rattle.validity.specs.Order.{fields_fit, part_in_order, rings_in_order, after_holder, in_order};
ghost use Rattle.validity.specs.Order as order;
ghost use Rattle.validity.specs.Code.{reason_digit, code_of, reason_of, verdict_of};

use rules::answer::NO_DETAIL;
use rules::circuit::Circuit;
use rules::number;
use rules::part::{Part, Reference, Side};
use rules::standing::Standing;
use rules::verdict::{Check, Fault, Reason, Verdict};
use table::Record;

// Tells whether a record has no holder, or the holder's level is as it must be: one of the five, or that of no precedence.
fn holder_level_ok(r: Record) -> bool
    ensures { result ≡ if_present (circuit_in r.entry).holder (held_under (circuit_in r.entry).holder.mark) }
{
    let p = r.part(Side::Holder);
    !p.present || p.mark.level.known() || r.unmarked()
}

// Tells whether a reservation's part is absent, or its level is one of the five.
fn reservation_level_ok(p: Part) -> bool
    ensures { result ≡ if_present p (reserved_under p.mark) }
{
    !p.present || p.mark.level.known()
}

// Tells whether the level of each part of a record that is present is as it must be.
#[tactic(auto, unfolding(rules::specs::Valid::levels_ok))]
fn levels_ok(r: Record) -> bool
    ensures { result ≡ levels_ok (circuit_in r.entry) }
{
    holder_level_ok(r) && reservation_level_ok(r.part(Side::Reservation))
}

// Tells whether the two top bits of a reference's last octet, which are spare, are 0.
#[tactic(auto, unfolding(rules::specs::Fields::point_code_ok))]
fn point_code_ok(reference: Reference) -> bool
    ensures { result ≡ point_code_ok reference }
{
    reference[4] < 64
}

// Tells whether the digits of a part and the spare bits of its reference are right.
fn fields_fit(p: Part) -> bool
    ensures { result ≡ fields_fit p }
{
    rules::parameter::decimal(p.mark.domain) && point_code_ok(p.reference)
}

// Tells whether a part is absent, or its digits and the spare bits of its reference are right.
fn part_ok(p: Part) -> bool
    ensures { result ≡ if_present p (fields_fit p) }
{
    !p.present || fields_fit(p)
}

// Tells whether the digits and the spare bits of each part of a record that is present are right.
#[tactic(auto, unfolding(rules::specs::Valid::fields_ok))]
fn fields_ok(r: Record) -> bool
    ensures { result ≡ fields_ok point_code_ok (circuit_in r.entry) }
{
    part_ok(r.part(Side::Holder)) && part_ok(r.part(Side::Reservation))
}

// Tells whether a reservation outranks the holder that it stands above, if there is one, and that holder may lose the circuit.
#[tactic(auto, unfolding(rules::specs::Valid::pair_ok))]
fn pair_ok(c: Circuit) -> bool
    ensures { result ≡ pair_ok c }
{
    if !c.holder.present || !c.reservation.present {
        return true;
    }
    Standing::preemptable(c.holder.present, c.holder.mark.level, c.ringing)
        && c.reservation.mark.outranks(c.holder.mark)
}

// Tells whether the flags of a record are 0 or 1, and its levels as they must be.
fn flags_and_levels(r: Record) -> bool
    ensures { result ≡ flags_at r.entry.table.now r.entry.number && levels_ok (circuit_in r.entry) }
{
    r.flags() && levels_ok(r)
}

// Gives the verdict that a record has a fault, for this reason.
fn fault(r: Record, reason: Reason) -> Verdict
    ensures { result ≡ fault reason r.entry.number }
{
    Err(Fault {
        reason,
        at: r.number,
    })
}

// Gives the verdict on a record by itself, by the first reason that applies to it.
#[tactic(auto, unfolding(rules::specs::Valid::record_verdict, rules::specs::Records::records))]
fn by_reasons(r: Record) -> Verdict
    ensures { result ≡ record_verdict records r.entry.table.now r.entry.number }
{
    if !flags_and_levels(r) {
        return fault(r, Reason::FlagOrLevel);
    }
    if !fields_ok(r) {
        return fault(r, Reason::DigitOrPointCode);
    }
    if !r.blank() {
        return fault(r, Reason::NotZero);
    }
    if !pair_ok(r.circuit()) {
        return fault(r, Reason::NotAbove);
    }
    Ok(())
}

// Tells whether a part that is present is fit by itself: its level is one of the five, and its digits and its spare bits are right.
fn fit(p: Part) -> bool
    ensures { result ≡ order.fit p }
{
    p.mark.level.known() && fields_fit(p)
}

// Tells whether the holder's part of a record is present and fit, or its first octets are zero.
fn holder_in_order(r: Record) -> bool
    ensures { result ≡ part_in_order (circuit_in r.entry).holder (first_octets r.entry.table.now r.entry.number) }
{
    let p = r.part(Side::Holder);
    if p.present { fit(p) } else { r.first_zero() }
}

// Tells whether a record has a holder that rings, and no reservation: the reservation's part is zero, and of the last four octets the others.
fn rings_in_order(r: Record) -> bool
    ensures { result ≡ rings_in_order r.entry.table.now r.entry.number }
{
    r.present(Side::Holder) && r.tail_rings() && r.reservation_zero()
}

// Tells whether nobody holds the circuit, or one whom its reservation outranks.
fn above(c: Circuit) -> bool
    ensures { result ≡ order.above c }
{
    !c.holder.present || c.reservation.mark.outranks(c.holder.mark)
}

// Tells whether a record is in order after its holder's part. Only where there is a reservation are the two parts held against each other. A
// holder that rings is judged apart.
fn after_holder(r: Record) -> bool
    ensures { result ≡ after_holder r.entry.table.now r.entry.number }
{
    if !r.tail_zero() {
        return rings_in_order(r);
    }
    if !r.present(Side::Reservation) {
        return r.reservation_zero();
    }
    fit(r.part(Side::Reservation)) && above(r.circuit())
}

// Tells whether a record is in order: then no reason applies to it.
#[tactic(auto, unfolding(crate::specs::Order::in_order))]
fn in_order(r: Record) -> bool
    ensures { result ≡ in_order r.entry.table.now r.entry.number }
{
    holder_in_order(r) && after_holder(r)
}

// Gives what `by_reasons` gives of a record. A holder under no precedence is not in order, and it is for `by_reasons` to find nothing there.
fn judged(r: Record) -> Verdict
    ensures { result ≡ record_verdict records r.entry.table.now r.entry.number }
{
    if in_order(r) { Ok(()) } else { by_reasons(r) }
}

// Gives the verdict on the records, each by itself: it is that on the lowest that has a fault.
fn each_record(t: &[u8]) -> Verdict
    ensures { result ≡ records_to records t.now (circuits t.now) }
{
    for number in 0..table::count(t) {
        judged(Record { table: t, number })?;
    }
    Ok(())
}

// Gives the verdict on the references: the first that stands in an earlier part is a fault.
#[tactic(auto, unfolding(rules::specs::Records::records))]
fn each_reference(t: &[u8]) -> Verdict
    ensures { result ≡ parts_to records t.now (circuits t.now) }
{
    match references::first_repeated(t) {
        Some(part) => Err(Fault {
            reason: Reason::Repeated,
            at: part / 2,
        }),
        None => Ok(()),
    }
}

// Finds the first fault of the table: first in a record by itself, then in the references.
#[tactic(auto, unfolding(rules::specs::Valid::verdict, rules::specs::Records::records))]
fn first_fault(t: &[u8]) -> Verdict
    ensures { result ≡ rule.verdict records t.now }
{
    each_record(t)?;
    each_reference(t)
}

// Gives the last digit of a reason's number.
fn digit(reason: Reason) -> u64
    ensures { result ≡ reason_digit reason }
{
    u64::from(u8::from(reason) - 40)
}

// Gives the code of the verdict on a table: 0 for a valid one, else 8 times the record of the first fault and the last digit of its reason's number.
// Every entry that checks takes the verdict from here. A Result was tried: the compiler gives it back through memory, and a list then takes 456
// octets of stack, over its bound of 448 (docs/DECISIONS.md).
fn coded(t: &[u8]) -> u64
    ensures { result ≡ code_of (rule.verdict records t.now) }
{
    match first_fault(t) {
        Ok(()) => 0,
        Err(fault) => 8 * fault.at as u64 + digit(fault.reason),
    }
}

// Gives the reason whose number has this last digit.
#[tactic(auto, unfolding(crate::specs::Code::reason_of))]
fn reason(digit: u64) -> Reason
    ensures { result ≡ reason_of digit }
{
    match digit {
        1 => Reason::FlagOrLevel,
        2 => Reason::DigitOrPointCode,
        3 => Reason::NotZero,
        4 => Reason::NotAbove,
        _ => Reason::Repeated,
    }
}

// Gives the verdict whose code this is.
fn decoded(code: u64) -> Verdict
    ensures { result ≡ verdict_of code }
{
    if code == 0 {
        Ok(())
    } else {
        Err(Fault {
            reason: reason(code % 8),
            at: (code / 8) as usize,
        })
    }
}

// Finds the first fault of the table, by its reason and its record.
pub fn verdict(t: &[u8]) -> Verdict
    ensures { result ≡ rule.verdict records t.now }
{
    decoded(coded(t))
}

// Gives 0 for a valid table, 20 for a wrong length, else the reason and the record of the first fault. It decodes the verdict itself: were `verdict`
// called, the compiler would make a function of it, which gives its Result back through memory.
pub fn check(t: &[u8]) -> Check
    ensures reading { result ≡ checked t.now }
{
    if !table::right_length(t.len()) {
        return Check {
            number: number::WRONG_LENGTH,
            detail: NO_DETAIL,
        };
    }
    match decoded(coded(t)) {
        Ok(()) => Check {
            number: number::DONE,
            detail: NO_DETAIL,
        },
        Err(fault) => Check {
            number: u8::from(fault.reason),
            detail: fault.at as u16,
        },
    }
}
