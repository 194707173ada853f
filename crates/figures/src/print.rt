// This module writes the figures to standard output.
use lines::figures::MOST_LETTERS;
use streams::{LINE, Reported};
use tally::totals::Totals;

// Writes the text of the totals.
pub fn totals(rt: &HostRuntime, start: u64, end: u64, totals: &Totals) -> Result<(), Reported> {
    streams::print(
        rt,
        &mut [0; MOST_LETTERS],
        |text| lines::figures::lines(text, start, end, totals),
    )
}

// Writes a line for each number of octets that were left over, in their order.
pub fn shorts(rt: &HostRuntime, lefts: &[u8]) -> Result<(), Reported> {
    for left in lefts {
        streams::short(rt, *left)?;
    }
    Ok(())
}

// Writes the last line, where a list was refused.
pub fn too_many(rt: &HostRuntime) {
    let _ = streams::print(rt, &mut [0; LINE], lines::figures::too_many);
}
