// This module takes the events of one input, list by list, and adds each list to the totals.
ghost use Rattle.std.specs.Prelude.{◌≡◌, ◌*◌, ◌%◌, ◌≤◌, length, is_ok};
ghost use Rattle.rules.specs.Records.{event_size, most_events};
ghost use Rattle.tally.specs.Entry.{has_room};
ghost use Rattle.figures.specs.Output.{Sized, listed_table, listed_totals};

use std::io::Read;
use streams::End;
use tally::Refused;
use tally::totals::{MOST_LISTS, Totals};

// This says that a list was one too many, and how its reading ended.
#[derive(Clone, Copy)]
pub struct TooMany(pub End);

// This is a tally sheet: a table of 1 to 256 circuits, to which events are applied, and the totals, to which what they come to is added.
#[derive(Drop)]
pub struct Sheet<'a> {
    pub table: &'a mut [u8],
    pub totals: &'a mut Totals,
    ghost sized: { Sized (length table.now) },
}

impl Sheet<'_> {
    // Applies a list of events to the table, and adds it to the totals.
    fn add(&mut self, events: &[u8]) -> Result<(), Refused>
        requires event_size_len { length events.now % event_size ≡ 0 }
        requires events_len_bound { length events.now ≤ event_size * most_events }
        ensures added { is_ok result ≡ has_room self.old.totals.now }
        ensures table { self.new.table.now ≡ listed_table self.old.table.now events.now self.old.totals.now }
        ensures totals { self.new.totals.now ≡ listed_totals self.old.table.now events.now self.old.totals.now }
    {
        let mut places = streams::list_room();
        let places = &mut places[..events.len()];
        let totals = &mut *self.totals;
        tally::list(self.table, events, places, totals)
    }

    // Takes one list from the file, and says how it ended. It is added where it has an event, or is the first.
    fn turn<R: Read>(&mut self, file: &mut R, first: bool) -> Result<End, TooMany> {
        let mut room = streams::list_room();
        let list = streams::next_list(file, &mut room);
        if first || !list.events.is_empty() {
            self.add(list.events).map_err(|_| TooMany(list.end))?;
        }
        Ok(list.end)
    }

    // Takes the lists of the file one after another, each of 4,096 events but the last, and says how the last one ended. At most 65,536 come
    // after the first, since totals take no more: one of them is refused at the latest.
    pub fn all<R: Read>(&mut self, file: &mut R) -> Result<End, TooMany> {
        let mut end = self.turn(file, true)?;
        for _ in 0..MOST_LISTS {
            let End::Full = end else { break };
            end = self.turn(file, false)?;
        }
        Ok(end)
    }
}
