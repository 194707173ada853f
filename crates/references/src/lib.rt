// This crate tells whether a call reference stands in two parts. A filter of bits says at once of most references that they are new;
// only where all bits of one are set already are the earlier parts searched.

#![tactic(auto)]

ghost use Rattle.std.specs.Prelude.{◌≡◌, true, ◌&&◌, ◌||◌, ◌+◌, ◌*◌, ◌<◌, ◌≤◌, min, unwrap_or};
ghost use Rattle.rules.specs.Circuit.{is_of};
ghost use Rattle.rules.specs.Search.{first_to};
ghost use Rattle.rules.specs.Valid.{side_number, repeated};
ghost use Rattle.rules.specs.Records.{circuits, circuit_at};
ghost use Rattle.table.specs.Record.{circuit_in};
ghost use Rattle.references.specs.Filter.{stems, in_range, bits_in, already, stands_to, repeated_in, Grown, Seen};
ghost use Rattle.references.specs.Filter as filter;

use rules::part::{Reference, Side};
use std::ops::Range;
use table::Record;

// The filter has so many words of 64 bits: 256 octets of stack.
const WORDS: usize = 32;

// The stems of references lie below this.
const STEMS: u64 = 4294967296;

// There are as many passes as let some so many references stand in the filter at a time.
const AT_ONCE: usize = 172;

// Gives the stem of a reference, which says in which pass it is noted. It leaves the last octet out, so that whoever is passed over is so
// with one multiplication.
#[tactic(auto, unfolding(crate::specs::Filter::stem))]
fn stem(r: Reference) -> u64
    ensures stem { result ≡ filter.stem r }
    ensures below { result < stems }
{
    u64::from(octets::read_number(&r, 0)) * 1540483477 % STEMS
}

// Gives a number in which each octet of a reference tells on many bits, so that the numbers of like references differ.
#[tactic(auto, unfolding(crate::specs::Filter::spread))]
fn spread(r: Reference) -> u64
    ensures { result ≡ filter.spread r }
{
    stem(r) * 695872825 + 739982445 * u64::from(r[4])
}

// Gives the three bits that stand for a reference in its word, by its spread number.
fn bits(v: u64) -> u64
    ensures { result ≡ bits_in v }
{
    (1 << (v / 16384 % 64)) | (1 << (v / 1048576 % 64)) | (1 << (v / 67108864 % 64))
}

// Sets the bits of a reference, and says whether all of them were set before.
fn set_bits(w: &mut [u64; WORDS], r: Reference) -> bool
    ensures lit { result ≡ already w.old r }
    ensures words { Grown w.old w.new r true }
{
    let v = spread(r);
    let k = (v / 4294967296 % 32) as usize;
    let old = w[k];
    let new = old | bits(v);
    w[k] = new;
    new == old
}

// Notes a reference whose stem is one of a pass, and says whether it may stand in an earlier part; any other is passed over.
fn may_repeat(w: &mut [u64; WORDS], r: Reference, stems: &Range<u64>) -> bool
    ensures lit { result ≡ in_range stems.now.start stems.now.end r && already w.old r }
    ensures words { Grown w.old w.new r (in_range stems.now.start stems.now.end r) }
{
    stems.contains(&stem(r)) && set_bits(w, r)
}

// Tells whether the call with this reference stands on a circuit.
fn stands_on(circuit: Record, r: Reference) -> bool
    ensures { result ≡ is_of r (circuit_in circuit.entry).holder || is_of r (circuit_in circuit.entry).reservation }
{
    circuit.stands_in(Side::Holder, r) || circuit.stands_in(Side::Reservation, r)
}

// Tells whether the call with this reference stands on a circuit below i, which is no `Record`, since it may be the number of circuits.
#[tactic(auto, using(crate::proofs::Filters::stands_none, crate::proofs::Filters::stands_next))]
pub fn stands_below(t: &[u8], i: usize, r: Reference) -> bool
    requires { i ≤ circuits t.now }
    ensures { result ≡ stands_to (circuit_at t.now) r (2 * i) }
{
    for number in 0..i {
        if stands_on(Record { table: t, number }, r) {
            return true;
        }
    }
    false
}

// Tells whether the call with this reference stands in a part before that of a circuit on a side, its holder's included before its
// reservation's.
#[tactic(auto, using(crate::proofs::Filters::stands_between))]
fn stands_before(circuit: Record, side: Side, r: Reference) -> bool
    ensures { result ≡ stands_to (circuit_at circuit.entry.table.now) r (2 * circuit.entry.number + side_number side) }
{
    let below = stands_below(circuit.table, circuit.number, r);
    match side {
        Side::Holder => below,
        Side::Reservation => below || circuit.stands_in(Side::Holder, r),
    }
}

// Notes the reference of a circuit on a side, if that part is present and in range, and tells whether it stands in an earlier part.
fn note(circuit: Record, w: &mut [u64; WORDS], side: Side, stems: &Range<u64>) -> bool
    requires { Seen (circuit_at circuit.table.now) stems.now.start stems.now.end w.old (2 * circuit.number + side_number side) }
    ensures twice { result ≡ repeated_in stems.now.start stems.now.end (circuit_at circuit.entry.table.now) (2 * circuit.entry.number + side_number side) }
    ensures words { Seen (circuit_at circuit.entry.table.now) stems.now.start stems.now.end w.new (2 * circuit.entry.number + side_number side + 1) }
{
    if !circuit.present(side) {
        return false;
    }
    let r = circuit.reference(side);
    if !may_repeat(w, r, stems) {
        return false;
    }
    stands_before(circuit, side, r)
}

// Goes through all parts and finds the first that is in range and whose reference stands in an earlier part. A part goes by its number, twice its
// circuit's and its side's, of which `repeated` (rules/specs/Valid) speaks.
fn pass(t: &[u8], stems: &Range<u64>) -> Option<usize>
    ensures { result ≡ first_to (repeated_in stems.now.start stems.now.end (circuit_at t.now)) (2 * circuits t.now) }
{
    let mut w = [0u64; WORDS];
    for number in 0..table::count(t) {
        let circuit = Record { table: t, number };
        if note(circuit, &mut w, Side::Holder, stems) {
            return Some(2 * number);
        }
        if note(circuit, &mut w, Side::Reservation, stems) {
            return Some(2 * number + 1);
        }
    }
    None
}

// Counts how many circuits are reserved, from the last down: the loop then needs a register less.
fn reserved(t: &[u8]) -> usize
    ensures { result ≤ circuits t.now }
{
    let mut count = 0;
    for number in (0..table::count(t)).rev() {
        count += usize::from(Record { table: t, number }.present(Side::Reservation));
    }
    count
}

// Gives how many stems a pass takes. Nearly every circuit may be held, and few are reserved, so the reservations are counted.
fn share(t: &[u8]) -> u64
    ensures { (1 ≤ result) × (result ≤ stems) }
{
    let n = table::count(t);
    if 2 * n < AT_ONCE {
        return STEMS;
    }
    if n + reserved(t) < 2 * AT_ONCE {
        STEMS / 2
    } else {
        STEMS / 3 + 1
    }
}

// Gives the lower of a part and the first one so far, if there is one.
fn least(part: usize, first: Option<usize>) -> usize
    ensures { result ≡ min part (unwrap_or first part) }
{
    part.min(first.unwrap_or(part))
}

// Finds the first part whose reference stands in an earlier part. Equal references have one stem, so each pass finds those of its own range, and the
// lowest of any pass is the first. What is kept from pass to pass costs stack, so the ranges carry their own width.
pub fn first_repeated(t: &[u8]) -> Option<usize>
    ensures { result ≡ first_to (repeated (circuit_at t.now)) (2 * circuits t.now) }
{
    let mut first: Option<usize> = None;
    let mut stems = 0..share(t);
    // A `for` over numbered passes would be no plainer: each range would be computed from its number again. Tried, it took 24 octets of stack more.
    while stems.start < STEMS {
        if let Some(part) = pass(t, &stems) {
            first = Some(least(part, first));
        }
        stems = stems.end..stems.end + (stems.end - stems.start);
    }
    first
}
