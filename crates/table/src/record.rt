// A record of a table is the 32 octets in which one circuit stands.
ghost use Rattle.std.specs.Prelude.{◌≡◌, true, ◌+◌, ◌*◌, ◌<◌, ◌≤◌, nat_le, ◌∷◌, slice_index};
ghost use Rattle.octets.specs.Span.{zeros};
ghost use Rattle.octets.specs.Same.{same};
ghost use Rattle.rules.specs.Circuit.{same_mark, no_precedence, part_on, is_of, free, preemptable, standing, overdue};
ghost use Rattle.rules.specs.Standing.{standing_of};
ghost use Rattle.rules.specs.Valid.{if_present, side_number};
ghost use Rattle.rules.specs.Records.{circuit_size, circuits, ringing_octet, first_octets, holder_octets, reservation_octets, spare_octets, tail_octets, state_octets, flags_at, zero_if_absent, blank_at};

use crate::{CIRCUIT_SIZE, CLOCK, DOMAIN, LAST, LEVEL, REFERENCE, RESERVATION, RINGING, SPARE};
use rules::age::Age;
use rules::circuit::Circuit;
use rules::level::Level;
use rules::mark::Mark;
use rules::part::{Part, Reference, Side};
use rules::standing::Standing;

// The holder's part stands from this octet of a record on.
const HOLDER: usize = 0;

// Octets 28 to 31 of a record are these where octet 30 is 1 and the others are zero.
const RINGS: [u8; 4] = [0, 0, 1, 0];

// Gives the octet of a record from which on the part on a side stands.
fn start(side: Side) -> usize
    ensures { result ≡ 12 * side_number side }
{
    match side {
        Side::Holder => HOLDER,
        Side::Reservation => RESERVATION,
    }
}

#[derive(Clone, Copy)]
pub struct Record<'a> {
    pub table: &'a [u8],
    pub number: usize,
    pub ghost within: { number < circuits table.now },
}

impl<'a> Record<'a> {
    ghost use Rattle.table.specs.Record.{circuit_in};

    // Gives the place in the table of octet k of the record.
    fn place(self, k: usize) -> usize
        requires { k ≤ 32 }
        ensures { result ≡ circuit_size * self.entry.number + k }
    {
        CIRCUIT_SIZE * self.number + k
    }

    // Reads octet k of the record.
    fn octet(self, k: usize) -> u8
        requires { k < 32 }
        ensures { result ≡ slice_index self.entry.table.now (circuit_size * self.entry.number + k) }
    {
        self.table[self.place(k)]
    }

    // Tells whether the part on a side is present.
    pub fn present(self, side: Side) -> bool
        ensures { result ≡ (part_on side (circuit_in self.entry)).present }
    {
        self.octet(start(side)) == 1
    }

    // Reads the level of the part on a side.
    fn level_on(self, side: Side) -> Level
        ensures { result ≡ (part_on side (circuit_in self.entry)).mark.level }
    {
        Level(self.octet(start(side) + LEVEL))
    }

    // Reads the mark of the part on a side.
    fn mark(self, side: Side) -> Mark
        ensures { result ≡ (part_on side (circuit_in self.entry)).mark }
    {
        Mark {
            level: self.level_on(side),
            domain: octets::read(self.table, self.place(start(side) + DOMAIN)),
        }
    }

    // Reads the call reference in the part on a side.
    pub fn reference(self, side: Side) -> Reference
        ensures { result ≡ (part_on side (circuit_in self.entry)).reference }
    {
        octets::read(self.table, self.place(start(side) + REFERENCE))
    }

    // Reads the part on a side, the clock of a reservation aside.
    pub fn part(self, side: Side) -> Part
        ensures { result ≡ part_on side (circuit_in self.entry) }
    {
        Part {
            present: self.present(side),
            mark: self.mark(side),
            reference: self.reference(side),
        }
    }

    // Tells whether the call with this reference stands in the part on a side. The reference seldom does, so it is compared before the flag.
    pub fn stands_in(self, side: Side, reference: Reference) -> bool
        ensures { result ≡ is_of reference (part_on side (circuit_in self.entry)) }
    {
        octets::same(self.reference(side), reference) && self.present(side)
    }

    // Tells whether the circuit is free, by its two flags.
    pub fn free(self) -> bool
        ensures { result ≡ free (circuit_in self.entry) }
    {
        Standing::free(self.present(Side::Holder), self.present(Side::Reservation))
    }

    // Tells whether the holder rings.
    pub fn ringing(self) -> bool
        ensures { result ≡ (circuit_in self.entry).ringing }
    {
        self.octet(RINGING) == 1
    }

    // Tells whether the circuit may be lost by its holder, if it is held, by its flag, the holder's level, and whether the holder rings.
    fn preemptable(self) -> bool
        ensures { result ≡ preemptable (circuit_in self.entry) }
    {
        Standing::preemptable(
            self.present(Side::Holder),
            self.level_on(Side::Holder),
            self.ringing(),
        )
    }

    // Tells whether the holder's mark is that of a call under no precedence.
    pub fn unmarked(self) -> bool
        ensures { result ≡ same_mark (circuit_in self.entry).holder.mark no_precedence }
    {
        self.octet(LEVEL) == Level::NONE.0 && octets::is_zero::<5>(self.table, self.place(DOMAIN))
    }

    // Gives the side on which the mark is the standing one: the reservation's if there is one, else the holder's.
    fn standing_side(self) -> Side
        ensures { (part_on result (circuit_in self.entry)).mark ≡ standing (circuit_in self.entry) }
    {
        if self.present(Side::Reservation) {
            Side::Reservation
        } else {
            Side::Holder
        }
    }

    // Reads the level of the standing mark.
    pub fn level(self) -> Level
        ensures { result ≡ (standing (circuit_in self.entry)).level }
    {
        self.level_on(self.standing_side())
    }

    // Reads the standing of the circuit: its two flags, whether its holder may lose it, and of its two marks the one that stands.
    pub fn standing(self) -> Standing
        ensures { result ≡ standing_of (circuit_in self.entry) }
    {
        Standing {
            held: self.present(Side::Holder),
            reserved: self.present(Side::Reservation),
            preemptable: self.preemptable(),
            mark: self.mark(self.standing_side()),
        }
    }

    // Reads the clock of the reservation.
    fn clock(self) -> u32
        ensures { result ≡ (circuit_in self.entry).clock }
    {
        octets::read_number(self.table, self.place(CLOCK))
    }

    // Tells whether the circuit has a reservation that is overdue, by its flag and its clock.
    pub fn overdue(self, clock: u32) -> bool
        ensures { result ≡ overdue clock (circuit_in self.entry) }
    {
        self.present(Side::Reservation) && Age::between(clock, self.clock()).over()
    }

    // Reads the circuit.
    pub fn circuit(self) -> Circuit
        ensures { result ≡ circuit_in self.entry }
    {
        Circuit {
            holder: self.part(Side::Holder),
            reservation: self.part(Side::Reservation),
            clock: self.clock(),
            ringing: self.ringing(),
        }
    }

    // Tells whether there is no holder, or the octet that says whether the holder rings is 0 or 1.
    fn ringing_flag(self) -> bool
        ensures { result ≡ if_present (circuit_in self.entry).holder (nat_le (ringing_octet self.entry.table.now self.entry.number) 1) }
    {
        !self.present(Side::Holder) || self.octet(RINGING) <= 1
    }

    // Tells whether each flag is 0 or 1, and, where there is a holder, the octet that says whether it rings. That octet is asked first: in this
    // order the compiler makes a shorter loop of the check.
    #[tactic(auto, unfolding(rules::specs::Records::flags_at))]
    pub fn flags(self) -> bool
        ensures { result ≡ flags_at self.entry.table.now self.entry.number }
    {
        self.ringing_flag() && self.octet(HOLDER) <= 1 && self.octet(RESERVATION) <= 1
    }

    // Tells whether octets 0 to 11, the first of the holder's part, are zero.
    pub fn first_zero(self) -> bool
        ensures { result ≡ zeros (first_octets self.entry.table.now self.entry.number) }
    {
        octets::is_zero::<12>(self.table, self.place(HOLDER))
    }

    // Tells whether every octet of the holder's part is zero.
    fn holder_zero(self) -> bool
        ensures { result ≡ zeros (holder_octets self.entry.table.now self.entry.number) }
    {
        self.first_zero() && self.octet(RINGING) == 0
    }

    // Tells whether every octet of the reservation's part, its clock's too, is zero.
    pub fn reservation_zero(self) -> bool
        ensures { result ≡ zeros (reservation_octets self.entry.table.now self.entry.number) }
    {
        octets::is_zero::<16>(self.table, self.place(RESERVATION))
    }

    // Tells whether every octet that belongs to no part is zero. Where no holder rings, it is enough to ask the last four at once.
    fn spare_zero(self) -> bool
        ensures { result ≡ zeros (spare_octets self.entry.table.now self.entry.number) }
    {
        self.tail_zero()
            || octets::is_zero::<2>(self.table, self.place(SPARE)) && self.octet(LAST) == 0
    }

    // Tells whether octets 28 to 31 are zero: those that belong to no part, and the one that says whether the holder rings.
    pub fn tail_zero(self) -> bool
        ensures { result ≡ zeros (tail_octets self.entry.table.now self.entry.number) }
    {
        octets::is_zero::<4>(self.table, self.place(SPARE))
    }

    // Tells whether octet 30 is 1, and octets 28, 29 and 31 are zero.
    pub fn tail_rings(self) -> bool
        ensures { result ≡ same (tail_octets self.entry.table.now self.entry.number) (0 ∷ 0 ∷ state_octets true) }
    {
        octets::same(octets::read(self.table, self.place(SPARE)), RINGS)
    }

    // Tells whether there is a holder, or every octet of the holder's part is zero.
    fn holder_blank(self) -> bool
        ensures { result ≡ zero_if_absent (circuit_in self.entry).holder (holder_octets self.entry.table.now self.entry.number) }
    {
        self.present(Side::Holder) || self.holder_zero()
    }

    // Tells whether there is a reservation, or every octet of the reservation's part is zero.
    fn reservation_blank(self) -> bool
        ensures { result ≡ zero_if_absent (circuit_in self.entry).reservation (reservation_octets self.entry.table.now self.entry.number) }
    {
        self.present(Side::Reservation) || self.reservation_zero()
    }

    // Tells whether what must be zero is zero.
    #[tactic(auto, unfolding(rules::specs::Records::blank_at))]
    pub fn blank(self) -> bool
        ensures { result ≡ blank_at self.entry.table.now self.entry.number }
    {
        self.holder_blank() && self.reservation_blank() && self.spare_zero()
    }
}
