// The totals are 95 numbers that the caller lends. This module knows their places, adds to them, and tells whether they have room.
ghost use Rattle.std.specs.Prelude.{◌≡◌, ◌↔◌, ◌+◌, ◌<◌, is_some, IfSome, IsTrue, slice_index, EachIndex};
ghost use Rattle.tally.specs.Places as place;
ghost use Rattle.tally.specs.Shares.{at, one, is_seizure, adds, level_lost};
ghost use Rattle.tally.specs.Entry.{full, has_room, added};
ghost use Rattle.tally.specs.Room.{HasPlace, HasRoomFor};

use rules::event::Kind;
use rules::level::Level;
use rules::number;

// There are so many totals.
pub const FIGURES: usize = 95;

pub type Totals = [u64; FIGURES];

// This is the place of the lists that were added.
pub const LISTS: usize = 0;

// This is the place of the holders at the start of each list.
pub const START: usize = 1;

pub const SEIZED: usize = 2;

pub const RELEASED: usize = 3;

// This is the place of the holders that were lost.
pub const LOST: usize = 4;

// This is the place of the holders at the end of each list.
pub const END: usize = 5;

// From this place on stand the holders that were lost, by the taker's level and the loser's.
pub const LOST_BY_LEVEL: usize = 6;

// From this place on stand the events by the number of their answer.
pub const ANSWERED: usize = 31;

// At most so many lists are added.
pub const MOST_LISTS: u64 = 65536;

// A total of 2^64 - 4,096 has no room in 64 bits for what a list may add to it: 4,096.
const FULL: u64 = 18446744073709547520;

// Adds n to the total at a place.
fn add(totals: &mut [u64], place: usize, n: u64)
    requires { HasPlace n totals.old place }
    ensures { totals.new ≡ added (at place n) totals.old }
{
    totals[place] += n;
}

// Tells whether an event is a seizure: a set-up that was answered by 1 or 2.
#[tactic(auto, unfolding(rules::specs::Event::kind_of))]
fn is_seizure(kind: u8, number: u8) -> bool
    ensures { result ≡ is_seizure kind number }
{
    matches!(Kind::of(kind), Some(Kind::SetUp))
        && (number == number::SEIZED || number == number::SEIZED_WITH_LOSS)
}

// Gives the place of the holders of one level that were lost to set-ups of another.
fn lost_by_level(taker: Level, loser: Level) -> usize
    ensures { result ≡ place.lost_by_level taker.0 loser.0 }
{
    LOST_BY_LEVEL + 5 * usize::from(taker.0) + usize::from(loser.0)
}

// Counts an event as a seizure, as a release and as a loss of a holder, if it is one.
fn count_as(totals: &mut Totals, seizure: bool, release: bool, lost: bool)
    requires { HasRoomFor 1 totals.old }
    ensures { totals.new
        ≡ added (λ j. at place.seized (one seizure) j + at place.released (one release) j + at place.lost (one lost) j)
        totals.old }
{
    add(totals, SEIZED, u64::from(seizure));
    add(totals, RELEASED, u64::from(release));
    add(totals, LOST, u64::from(lost));
}

// Counts a holder by its own level and the taker's, if one was lost.
fn count_lost(totals: &mut Totals, taker: Level, lost: Option<Level>)
    requires { IfSome lost (λ loser. HasPlace 1 totals.old (place.lost_by_level taker.0 loser.0)) }
    ensures { totals.new
        ≡ added (at (place.lost_by_level taker.0 (level_lost lost)) (one (is_some lost))) totals.old }
{
    if let Some(loser) = lost {
        add(totals, lost_by_level(taker, loser), 1);
    }
}

// Counts an event of this kind and level that was answered by this number; `lost` is the level under which a holder stood that was lost by it. Kind
// and number are octets, by which `adds` (tally/specs/Shares) and the claims on figures speak of them.
pub fn count(totals: &mut Totals, kind: u8, taker: Level, number: u8, lost: Option<Level>)
    requires has_room_for { HasRoomFor 1 totals.old }
    requires number_bound { number < 64 }
    requires loser_bound { IfSome lost (λ loser. place.lost_by_level taker.0 loser.0 < 31) }
    ensures { totals.new
        ≡ added (adds kind taker.0 number (is_some lost) (level_lost lost)) totals.old }
{
    count_as(
        totals,
        is_seizure(kind, number),
        number == number::RELEASED,
        lost.is_some(),
    );
    count_lost(totals, taker, lost);
    add(totals, ANSWERED + usize::from(number), 1);
}

// Adds a list, with the holders at its start and at its end. The totals are a slice of any length, of which the clauses ask three places: an array would
// ask more.
pub fn add_list(totals: &mut [u64], start: u64, end: u64)
    requires lists_place { HasPlace 1 totals.old place.lists }
    requires start_place { HasPlace start totals.old place.start }
    requires end_place { HasPlace end totals.old place.end }
    ensures { totals.new ≡ added (λ j. at place.lists 1 j + at place.start start j + at place.end end j) totals.old }
{
    add(totals, LISTS, 1);
    add(totals, START, start);
    add(totals, END, end);
}

// Tells whether each total has room for what a list may add to it.
fn none_full(totals: &Totals) -> bool
    ensures { IsTrue result ↔ EachIndex totals.now (λ j. slice_index totals.now j < full) }
{
    totals.iter().all(|total| *total < FULL)
}

// Tells whether another list may be added.
#[tactic(auto, unfolding(crate::specs::Entry::has_room))]
pub fn has_room(totals: &Totals) -> bool
    ensures { result ≡ has_room totals.now }
{
    totals[LISTS] < MOST_LISTS && none_full(totals)
}
