// This module writes the lines of the day's figures.
ghost use Rattle.std.specs.Prelude.{◌≡◌, ◌≤◌, ◌<◌};
ghost use Rattle.lines.specs.Text.{Written};
ghost use Rattle.lines.specs.Extended.{extended};
ghost use Rattle.lines.specs.Figures as rule;

use crate::text::{Text, whole};
use tally::totals::{ANSWERED, FIGURES, LOST, LOST_BY_LEVEL, RELEASED, SEIZED};

// The text of the totals has at most 4,200 letters.
pub const MOST_LETTERS: usize = 4200;

// Writes the lines of the sums: holders at the start, what was seized, released and lost, and holders at the end.
#[tactic(auto, using(crate::proofs::Extended::parts), unfolding(crate::specs::Figures::sums))]
fn sums(text: &mut Text, start: u64, end: u64, totals: &[u64; FIGURES])
    ensures { text.new ≡ extended text.old (rule.sums start end totals.now) }
{
    text.numbered(b"start ", start);
    text.numbered(b"seized ", totals[SEIZED]);
    text.numbered(b"released ", totals[RELEASED]);
    text.numbered(b"lost ", totals[LOST]);
    text.numbered(b"end ", end);
}

// Writes the line of answer number k, where n events got it; where none did, nothing.
#[tactic(auto, using(crate::proofs::Extended::parts), unfolding(crate::specs::Figures::answer))]
fn answer(text: &mut Text, k: usize, n: u64)
    ensures { text.new ≡ extended text.old (rule.answer k n) }
{
    if n == 0 {
        return;
    }
    text.put(b"answer");
    text.field(k as u64);
    text.field(n);
    text.put(b"\n");
}

// Writes the lines of the answer numbers.
fn answers(text: &mut Text, totals: &[u64; FIGURES])
    ensures { text.new ≡ extended text.old (rule.answers_to totals.now 64) }
{
    for k in 0..64 {
        answer(text, k, totals[ANSWERED + k]);
    }
}

// Writes the cells of a taker's row: how many holders of each level it took circuits from.
fn cells(text: &mut Text, taker: usize, totals: &[u64; FIGURES])
    requires { taker < 5 }
    ensures { text.new ≡ extended text.old (rule.cells_to totals.now taker 5) }
{
    for loser in 0..5 {
        text.field(totals[LOST_BY_LEVEL + 5 * taker + loser]);
    }
}

// Writes the row of a taker's level, after its name.
#[tactic(auto, using(crate::proofs::Extended::parts), unfolding(crate::specs::Figures::row))]
fn row(text: &mut Text, name: &[u8], taker: usize, totals: &[u64; FIGURES])
    requires { taker < 5 }
    ensures { text.new ≡ extended text.old (rule.row totals.now taker name.now) }
{
    text.put(name);
    cells(text, taker, totals);
    text.put(b"\n");
}

// The levels of the takers have these names, the highest level first.
const TAKERS: [&str; 5] = [
    "FLASH_OVERRIDE",
    "FLASH",
    "IMMEDIATE",
    "PRIORITY",
    "ROUTINE",
];

// Writes a row for each level of the taker.
#[tactic(auto, using(crate::proofs::Extended::parts), unfolding(crate::specs::Figures::rows))]
fn rows(text: &mut Text, totals: &[u64; FIGURES])
    ensures { text.new ≡ extended text.old (rule.rows totals.now) }
{
    for (taker, name) in TAKERS.iter().enumerate() {
        row(text, name.as_bytes(), taker, totals);
    }
}

// Writes the whole text of the totals, where the tables had so many holders at their start and so many at their end.
pub fn lines(out: &mut [u8], start: u64, end: u64, totals: &[u64; FIGURES]) -> usize
    ensures text { Written out.old 0 (rule.figures_text start end totals.now) out.new result }
    ensures end { result ≤ rule.most_letters }
{
    let mut text = Text::new(out);
    sums(&mut text, start, end, totals);
    answers(&mut text, totals);
    text.put(b"taker FLASH_OVERRIDE FLASH IMMEDIATE PRIORITY ROUTINE\n");
    rows(&mut text, totals);
    text.length()
}

// Writes the last line where a list was refused by 60.
pub fn too_many(out: &mut [u8]) -> usize
    ensures { Written out.old 0 rule.too_many out.new result }
{
    whole(out, b"60\n")
}
