// The program draws the lamp map of the table in circuits.bin, and again after the events on standard input.

#![tactic(auto)]

ghost use Rattle.std.specs.Prelude.{◌≤◌};
ghost use Rattle.lines.specs.Text.{Written};
ghost use Rattle.lines.specs.Panel.{most_letters};
ghost use Rattle.panel.specs.Drawn.{panel};

use lines::panel::MOST_LETTERS;
use streams::{End, Reported, TABLE_ROOM};

// Writes the panel of a table into the text, and gives its length.
fn drawn(table: &[u8], text: &mut [u8]) -> usize
    ensures text { Written text.old 0 (panel table.now) text.new result }
    ensures within { result ≤ most_letters }
{
    let map = lamps::map(table);
    let words = map.words;
    let first = lamps::lowest(words);
    lines::panel::draw(text, words, map.lit, first)
}

// Writes the panel of a table to standard output.
fn draw(rt: &HostRuntime, table: &[u8]) -> Result<(), Reported> {
    streams::print(rt, &mut [0; MOST_LETTERS], |text| drawn(table, text))
}

// Applies one list from standard input to the table, and looks at none of its answers. Tells whether the list had an event, and how it ended. Both rooms
// lie here, since in the callers they would lie on the stack all the time.
fn turn(rt: &HostRuntime, table: &mut [u8]) -> (bool, End) {
    let mut room = streams::list_room();
    let mut answers = streams::list_room();
    let list = streams::next_list(&mut rt.stdin(), &mut room);
    let places = &mut answers[..list.events.len()];
    // No length is wrong here: the table was checked, the events are whole, and each has its place.
    let _ = route::list(table, list.events, places);
    (!list.events.is_empty(), list.end)
}

// Applies the lists after the first, each of them full but the last, and says how the last one ended. The bound makes the loop end: no input has so many.
fn last(rt: &HostRuntime, table: &mut [u8], first: End) -> End {
    let mut end = first;
    for _ in 0..u64::MAX {
        let End::Full = end else { break };
        (_, end) = turn(rt, table);
    }
    end
}

// Draws the panel before the events and, if there are any, after them, with an empty line between.
fn twice(rt: &HostRuntime, table: &mut [u8]) -> Result<(), Reported> {
    draw(rt, table)?;
    let (any, first) = turn(rt, table);
    if !any {
        streams::ended(rt, first);
        return Ok(());
    }
    let end = last(rt, table, first);
    streams::write(rt, b"\n")?;
    draw(rt, table)?;
    streams::ended(rt, end);
    Ok(())
}

// Draws the panel of the table, unless there is none.
fn run(rt: &HostRuntime) -> Result<(), Reported> {
    let mut space = [0u8; TABLE_ROOM];
    let n = streams::table(rt, &mut space)?;
    twice(rt, &mut space[..n])
}

fn main(rt: HostRuntime) {
    let _ = run(&rt);
}
