// This module applies a list of events to the table, and writes the lines of its answers.
ghost use Rattle.std.specs.Prelude.{◌≡◌, ◌+◌, ◌*◌, ◌≤◌, ◌<◌, length};
ghost use Rattle.rules.specs.Records.{answer_size, most_events};
ghost use Rattle.route.specs.Entries.{list_table, list_answers};
ghost use Rattle.lines.specs.Text.{Written};
ghost use Rattle.lines.specs.Event.{line, most_letters};
ghost use Rattle.decide.specs.Listing.{last_number, room, listing};

use events::{ANSWER_SIZE, MOST_EVENTS};
use lines::event::MOST_LETTERS;

// The lines of a list of most events, each of most letters, need this room: 4,096 times 65.
pub const ROOM: usize = MOST_EVENTS * MOST_LETTERS;

// Gives a text in which the lines of a list have room.
pub fn space() -> [u8; ROOM]
    ensures { room ≡ length result }
{
    [0; ROOM]
}

// Gives the number of events that are answered after a full list, where `before` were answered before it. The bound on `before` is asked at each
// step: a type for it would hold one number, and would be taken apart wherever a line is numbered.
pub fn numbered_on(before: u64) -> u64
    requires { before < last_number }
    ensures { result ≡ before + most_events }
{
    before + MOST_EVENTS as u64
}

// Writes the line of an event into the text, from octet `at` on, and gives the octet after it.
fn line_at(text: &mut [u8], at: usize, number: u64, a: [u8; ANSWER_SIZE]) -> usize
    requires { at + most_letters ≤ length text.old }
    ensures text { Written text.old at (line number a) text.new result }
    ensures end { result ≤ at + most_letters }
{
    at + lines::event::line(&mut text[at..], number, a)
}

// Writes the lines of a list's answers, after `before` events that were answered before, and gives their length.
fn listing(before: u64, answers: &[u8], text: &mut [u8]) -> usize
    requires answers_len_bound { length answers.now ≤ answer_size * most_events }
    requires before_lt_last_number { before < last_number }
    requires room_in_bounds { room ≤ length text.old }
    ensures text { Written text.old 0 (listing before answers.now) text.new result }
    ensures end { result ≤ room }
{
    let n = answers.len() / ANSWER_SIZE;
    let mut at = 0;
    for k in 0..n {
        at = line_at(
            text,
            at,
            before + k as u64 + 1,
            events::answer_at(answers, k),
        );
    }
    at
}

// Applies the events to the table, leaves their answers at their places, writes the lines of these, and gives the length of the lines.
pub fn decided(
    before: u64,
    table: &mut [u8],
    events: &[u8],
    places: &mut [u8],
    text: &mut [u8],
) -> usize
    requires places_len_bound { length places.old ≤ answer_size * most_events }
    requires before_lt_last_number { before < last_number }
    requires room_in_bounds { room ≤ length text.old }
    ensures table { table.new ≡ list_table table.old events.now places.old }
    ensures text { Written text.old 0
        (listing before (list_answers table.old events.now places.old))
        text.new result }
    ensures end { result ≤ room }
{
    // Where a length is wrong, the places stay as they are, and so do the lines of what stands there.
    let _ = route::list(table, events, places);
    listing(before, places, text)
}
