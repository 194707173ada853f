// This module keeps the events that a scene has played, and their answers.
ghost use Rattle.std.specs.Prelude.{◌≤◌};

use events::{ANSWER_SIZE, EVENT_SIZE, MOST_EVENTS};
use table::MOST_CIRCUITS;

// A list has room for two more events than a list may have, so that too many can be tried.
pub const LIST: usize = EVENT_SIZE * (MOST_EVENTS + 2);

// A scene plays at most so many events one by one: twice as many as a table has circuits.
const PLAYED: usize = 2 * MOST_CIRCUITS;

// The events, or their answers, have this room.
const ROOM: usize = EVENT_SIZE * PLAYED;

// The last event that a scene plays starts before this octet.
const STARTS: usize = EVENT_SIZE * (PLAYED - 1) + 1;

// These are the events played one by one, and their answers, which have as many octets: the first `length` of their rooms. The rooms stay whole, since
// a list may be told to go on behind the events played.
#[derive(Clone, Copy)]
pub struct Played {
    events: [u8; ROOM],
    answers: [u8; ROOM],
    length: usize,
    ghost in_room: { length ≤ 8192 },
}

impl Played {
    pub fn new() -> Played {
        Played {
            events: [0; ROOM],
            answers: [0; ROOM],
            length: 0,
        }
    }

    // Gives the number of the event that is played next.
    pub fn next_number(&self) -> u64 {
        (self.length / EVENT_SIZE + 1) as u64
    }

    // Keeps an event and its answer.
    pub fn keep(&mut self, event: [u8; EVENT_SIZE], answer: [u8; ANSWER_SIZE]) {
        let at = self.length % STARTS;
        octets::write(&mut self.events, at, &event);
        octets::write(&mut self.answers, at, &answer);
        self.length = at + EVENT_SIZE;
    }

    // Gives the room of the events as a list, with zeros after it.
    pub fn list(&self) -> [u8; LIST] {
        let mut list = [0; LIST];
        octets::write(&mut list, 0, &self.events);
        list
    }

    pub fn answers(&self) -> &[u8] {
        &self.answers[..self.length]
    }

    // Gives how many octets the events have together with others, whose number has three octets, the high one first; but no more than a list
    // has room for.
    pub fn and_more(&self, others: [u8; 3]) -> usize
        ensures { result ≤ 65568 }
    {
        let [high, middle, low] = others;
        let others = u32::from_be_bytes([0, high, middle, low]);
        LIST.min(self.length + others as usize)
    }
}
