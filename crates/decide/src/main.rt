// The program reads the table from circuits.bin and events from standard input, and writes one line an event under a header.

#![tactic(auto)]

mod listing;

ghost use Rattle.std.specs.Prelude.{◌*◌, ◌≤◌, ◌<◌, length};
ghost use Rattle.rules.specs.Records.{event_size, most_events};
ghost use Rattle.decide.specs.Listing.{last_number};

use streams::{End, LINE, Reported, TABLE_ROOM};

// A list is taken only where fewer events than this came before it, so that every number fits in 64 bits: 2^64 less 4,096.
const LAST_NUMBER: u64 = 18446744073709547520;

// Writes the lines of one list, which comes after `before` events, to standard output.
fn print_list(
    rt: &HostRuntime,
    before: u64,
    table: &mut [u8],
    events: &[u8],
) -> Result<(), Reported>
    requires events_len_bound { length events.now ≤ event_size * most_events }
    requires before_lt_last_number { before < last_number }
{
    let n = events.len();
    let mut places = streams::list_room();
    streams::print(
        rt,
        &mut listing::space(),
        |text| listing::decided(before, table, events, &mut places[..n], text),
    )
}

// Takes one list from standard input, writes its lines, and says how it ended.
fn turn(rt: &HostRuntime, before: u64, table: &mut [u8]) -> Result<End, Reported>
    requires { before < last_number }
{
    let mut room = streams::list_room();
    let list = streams::next_list(&mut rt.stdin(), &mut room);
    print_list(rt, before, table, list.events)?;
    Ok(list.end)
}

// Takes lists one after another, each of 4,096 events but the last, as far as 64 bits number them: to event 2^64 - 4,096.
fn lists(rt: &HostRuntime, table: &mut [u8]) -> Result<(), Reported> {
    let mut before: u64 = 0;
    // The edit numbers_a_step_short holds the step, `numbered_on`, which a `for` with `step_by` would leave out.
    while before < LAST_NUMBER {
        match turn(rt, before, table)? {
            End::Full => before = listing::numbered_on(before),
            end => {
                streams::ended(rt, end);
                break;
            }
        }
    }
    Ok(())
}

// Writes the header and the lines of all events, unless there is no table.
fn run(rt: &HostRuntime) -> Result<(), Reported> {
    let mut space = [0u8; TABLE_ROOM];
    let n = streams::table(rt, &mut space)?;
    streams::print(rt, &mut [0; LINE], lines::event::header)?;
    lists(rt, &mut space[..n])
}

fn main(rt: HostRuntime) {
    let _ = run(&rt);
}
