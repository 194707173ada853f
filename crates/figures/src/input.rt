// This module takes the table from circuits.bin and the events from standard input.
use crate::lists::Sheet;
use crate::{pair, print};
use streams::{Reported, TABLE_ROOM};
use tally::totals::FIGURES;

// Writes the figures of the events on standard input, and after them the last line where a list was refused, else what decide writes after its
// lines.
fn written(rt: &HostRuntime) -> Result<(), Reported> {
    let mut space = [0u8; TABLE_ROOM];
    let n = streams::table(rt, &mut space)?;
    let mut totals = [0u64; FIGURES];
    let mut sheet = Sheet {
        table: &mut space[..n],
        totals: &mut totals,
    };
    let pair = pair::taken(&mut rt.stdin(), &mut sheet);
    print::totals(rt, pair.start, pair.end, &totals)?;
    match pair.ended {
        Ok(end) => streams::ended(rt, end),
        Err(_) => print::too_many(rt),
    }
    Ok(())
}

// Writes the figures of standard input, as far as nothing is amiss.
pub fn figures(rt: &HostRuntime) {
    let _ = written(rt);
}
