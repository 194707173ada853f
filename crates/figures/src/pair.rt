// This module applies the events of one input to one table, and counts the holders of the table before them and after them.
ghost use Rattle.std.specs.Prelude.{◌≤◌};
ghost use Rattle.rules.specs.Records.{most_circuits};

use crate::lists::{Sheet, TooMany};
use std::io::Read;
use streams::End;
use tally::totals::LISTS;

// This says what one table and its events came to: its holders before them and after them, if a list of them was added, and how they ended.
#[derive(Clone, Copy)]
pub struct Pair {
    pub start: u64,
    pub end: u64,
    pub ended: Result<End, TooMany>,
    ghost start_bound: { start ≤ most_circuits },
    ghost end_bound: { end ≤ most_circuits },
}

// Applies the events of the file to the table and adds them to the totals. A list that is refused adds nothing, and where none was added, no
// holders are counted.
pub fn taken<R: Read>(file: &mut R, sheet: &mut Sheet) -> Pair {
    let before = sheet.totals[LISTS];
    let start = tally::holders(sheet.table);
    let ended = sheet.all(file);
    let end = tally::holders(sheet.table);
    if sheet.totals[LISTS] == before {
        return Pair {
            start: 0,
            end: 0,
            ended,
        };
    }
    Pair { start, end, ended }
}
