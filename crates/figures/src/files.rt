// This module takes a pair of files, a table and its events, by the names that the program's arguments give them.
ghost use Rattle.std.specs.Prelude.{◌+◌, ◌*◌, ◌≤◌};
ghost use Rattle.tally.specs.Entry.{most_lists};

use crate::lists::{Sheet, TooMany};
use crate::pair;
use crate::pair::Pair;
use streams::{End, Reported, TABLE_ROOM};
use tally::totals::Totals;

// Applies the events in the file of this name to the table; where it cannot be opened or read, standard error names it.
fn opened(rt: &HostRuntime, name: &[u8], sheet: &mut Sheet) -> Result<Pair, Reported> {
    let mut file = streams::open(rt, name).map_err(|why| streams::fail(rt, name, why))?;
    let pair = pair::taken(&mut file, sheet);
    match pair.ended {
        Ok(End::Failed(why)) | Err(TooMany(End::Failed(why))) => Err(streams::fail(rt, name, why)),
        _ => Ok(pair),
    }
}

// Applies the events in the file that argument i names to the table.
fn events(rt: &HostRuntime, i: usize, sheet: &mut Sheet) -> Result<Pair, Reported> {
    let mut space = streams::named::space();
    let n = streams::named::name(rt, i, &mut space);
    opened(rt, &space[..n], sheet)
}

// Takes the table in the file that argument i names, and the events in the file that the next argument names.
pub fn taken(rt: &HostRuntime, i: usize, totals: &mut Totals) -> Result<Pair, Reported>
    requires { i ≤ 2 * most_lists + 1 }
{
    let mut space = [0u8; TABLE_ROOM];
    let n = streams::named::table(rt, i, &mut space)?;
    let mut sheet = Sheet {
        table: &mut space[..n],
        totals,
    };
    events(rt, i + 1, &mut sheet)
}
