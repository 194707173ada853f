// Circuits in the octets of a table are read record by record, and stored. No other code but the program `vectors` knows where a circuit's
// fields stand.

#![tactic(auto)]

ghost use Rattle.std.specs.Prelude.{◌≡◌, ◌+◌, ◌*◌, ◌<◌, ◌≤◌, length, ◌++◌};
ghost use Rattle.octets.specs.Number.{octets};
ghost use Rattle.octets.specs.Span.{put};
ghost use Rattle.rules.specs.Records.{circuit_size, circuits, part_octets, state_octets, put_circuit, table_length};

mod record;

pub use record::Record;
use rules::circuit::Circuit;
use rules::part::Part;

// A circuit has 32 octets.
pub const CIRCUIT_SIZE: usize = 32;

// A table has at least one circuit, and at most 256.
pub const MOST_CIRCUITS: usize = 256;

// A part has 12 octets, a reservation's clock aside.
const PART_SIZE: usize = 12;

// These say from which octet of a part on its level stands, then its domain, then its call reference.
const LEVEL: usize = 1;

const DOMAIN: usize = 2;

const REFERENCE: usize = 7;

// These say from which octet of a circuit on the reservation's part stands, then its clock.
const RESERVATION: usize = 12;

const CLOCK: usize = 24;

// This octet of a circuit says whether the holder rings. It belongs to the holder's part.
const RINGING: usize = 30;

// From this octet of a circuit on stand two that belong to no part, and this one, its last, belongs to none either.
const SPARE: usize = 28;

const LAST: usize = 31;

// Tells whether a table of n octets is 1 to 256 whole circuits.
#[tactic(auto, unfolding(rules::specs::Records::table_length))]
pub fn right_length(n: usize) -> bool
    ensures { result ≡ table_length n }
{
    n % CIRCUIT_SIZE == 0 && (1..=MOST_CIRCUITS).contains(&(n / CIRCUIT_SIZE))
}

// Counts the circuits of a table.
pub fn count(t: &[u8]) -> usize
    ensures { result ≡ circuits t.now }
{
    t.len() / CIRCUIT_SIZE
}

// Gives octets 30 and 31 of a circuit whose holder rings, or does not.
fn state_octets(ringing: bool) -> [u8; 2]
    ensures { result ≡ state_octets ringing }
{
    [u8::from(ringing), 0]
}

// Writes the part that stands from octet `o` on. What writes takes the table and a place, and no `Record`: of a table lent to be written, a
// struct would have to say in each clause what the caller's table ends as.
fn store_part(t: &mut [u8], o: usize, p: Part)
    requires { o + 12 ≤ length t.old }
    ensures { t.new ≡ put t.old o (part_octets p) }
{
    t[o] = p.flag();
    t[o + LEVEL] = p.mark.level.0;
    octets::write(t, o + DOMAIN, &p.mark.domain);
    octets::write(t, o + REFERENCE, &p.reference);
}

// Writes the holder's part of circuit i: octets 0 to 11, octet 30, which says whether the holder rings, and a zero in octet 31.
pub fn store_holder(t: &mut [u8], i: usize, p: Part, ringing: bool)
    requires { i < circuits t.old }
    ensures { t.new ≡ put (put t.old (circuit_size * i) (part_octets p)) (circuit_size * i + 30) (state_octets ringing) }
{
    store_part(t, CIRCUIT_SIZE * i, p);
    octets::write(t, CIRCUIT_SIZE * i + RINGING, &state_octets(ringing));
}

// Writes the reservation's part of circuit i, with its clock.
pub fn store_reservation(t: &mut [u8], i: usize, p: Part, clock: u32)
    requires { i < circuits t.old }
    ensures { t.new ≡ put t.old (circuit_size * i + 12) (part_octets p ++ octets 4 clock) }
{
    let o = CIRCUIT_SIZE * i + RESERVATION;
    store_part(t, o, p);
    octets::write(t, o + PART_SIZE, &clock.to_le_bytes());
}

// Writes circuit i whole.
pub fn store(t: &mut [u8], i: usize, c: Circuit)
    requires { i < circuits t.old }
    ensures { t.new ≡ put_circuit t.old i c }
{
    store_part(t, CIRCUIT_SIZE * i, c.holder);
    store_reservation(t, i, c.reservation, c.clock);
    octets::write(t, CIRCUIT_SIZE * i + SPARE, &[0; 2]);
    octets::write(t, CIRCUIT_SIZE * i + RINGING, &state_octets(c.ringing));
}
