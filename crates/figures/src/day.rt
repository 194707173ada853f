// This module takes pairs of files one after another, and writes the figures of all of them.
ghost use Rattle.std.specs.Prelude.{◌≡◌, ◌+◌, ◌*◌, ◌≤◌, length, OnOk, is_err};
ghost use Rattle.rules.specs.Records.{most_circuits};
ghost use Rattle.tally.specs.Entry.{most_lists};

use crate::lists::TooMany;
use crate::{files, print};
use streams::{End, Reported};
use tally::totals::{FIGURES, MOST_LISTS, Totals};

// Each pair adds a list, and totals take 65,536 lists, so that no more pairs are taken.
const MOST_PAIRS: usize = MOST_LISTS as usize;

// Gives room for the octets that were left over, a number for each pair.
fn room() -> [u8; MOST_PAIRS]
    ensures { most_lists ≡ length result }
{
    [0; MOST_PAIRS]
}

// Keeps how many octets were left over in the events file of pair k, unless a list of it was refused.
fn keep(lefts: &mut [u8], k: usize, ended: Result<End, TooMany>) {
    if let (Ok(End::Left(n)), Some(left)) = (ended, lefts.get_mut(k)) {
        *left = n;
    }
}

// This says what the pairs so far came to: how many they are, the holders of their tables, and how the last one ended. A table has at most 256
// holders, and there are at most 65,537 pairs, so that no sum is near 2^64.
#[derive(Clone, Copy)]
struct Day {
    pairs: usize,
    start: u64,
    end: u64,
    ended: Result<End, TooMany>,
    ghost start_bound: { start ≤ most_circuits * pairs },
    ghost end_bound: { end ≤ most_circuits * pairs },
}

impl Day {
    // Tells whether a list of the last pair was refused, so that no other pair is taken.
    fn is_refused(&self) -> bool
        ensures { result ≡ is_err self.now.ended }
    {
        self.ended.is_err()
    }

    // Takes the next pair.
    fn next(
        &mut self,
        rt: &HostRuntime,
        totals: &mut Totals,
        lefts: &mut [u8],
    ) -> Result<(), Reported>
        requires { self.old.pairs ≤ most_lists }
        ensures { OnOk result (self.new.pairs ≡ self.old.pairs + 1) }
    {
        let pair = files::taken(rt, 2 * self.pairs + 1, totals)?;
        keep(lefts, self.pairs, pair.ended);
        self.pairs += 1;
        self.start += pair.start;
        self.end += pair.end;
        self.ended = pair.ended;
        Ok(())
    }
}

// Takes the pairs one after another until one ends it: each adds a list, and the 65,537th is refused at the latest.
fn all(
    rt: &HostRuntime,
    pairs: usize,
    totals: &mut Totals,
    lefts: &mut [u8],
) -> Result<Day, Reported> {
    let mut day = Day {
        pairs: 0,
        start: 0,
        end: 0,
        ended: Ok(End::Left(0)),
    };
    for _ in 0..pairs.min(MOST_PAIRS + 1) {
        day.next(rt, totals, lefts)?;
        if day.is_refused() {
            break;
        }
    }
    Ok(day)
}

// Writes the figures of so many pairs of files, unless what is amiss was said.
fn written(rt: &HostRuntime, pairs: usize) -> Result<(), Reported> {
    let mut totals = [0u64; FIGURES];
    let mut lefts = room();
    let day = all(rt, pairs, &mut totals, &mut lefts)?;
    print::totals(rt, day.start, day.end, &totals)?;
    print::shorts(rt, &lefts)?;
    if day.is_refused() {
        print::too_many(rt);
    }
    Ok(())
}

// Writes the figures of so many pairs of files, as far as nothing is amiss.
pub fn figures(rt: &HostRuntime, pairs: usize) {
    let _ = written(rt, pairs);
}
