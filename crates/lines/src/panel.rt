// This module draws the lamp map as a person at a terminal sees it.
ghost use Rattle.std.specs.Prelude.{◌≡◌, ◌≤◌, ◌%◌, eqb};
ghost use Rattle.lines.specs.Text.{Written};
ghost use Rattle.lines.specs.Extended.{extended};
ghost use Rattle.lines.specs.Panel as rule;

use crate::text::Text;

// A drawing has at most 313 letters.
pub const MOST_LETTERS: usize = 313;

// Writes the lamp of a word's lowest bit.
fn lamp(text: &mut Text, w: u64)
    ensures { text.new ≡ extended text.old (rule.lamp (eqb (w % 2) 1)) }
{
    text.put(if w % 2 == 1 { b"*" } else { b"." });
}

// Writes the 64 lamps of a word, from its lowest bit on, and the end of the row.
#[tactic(auto, using(crate::proofs::Extended::parts), unfolding(crate::specs::Panel::row))]
fn row(text: &mut Text, w: u64)
    ensures { text.new ≡ extended text.old (rule.row w) }
{
    for i in 0..64u32 {
        lamp(text, w >> i);
    }
    text.put(b"\n");
}

// Writes the rows of the four words, one below the other.
fn rows(text: &mut Text, words: [u64; 4])
    ensures { text.new ≡ extended text.old (rule.rows_to words 4) }
{
    for word in words {
        row(text, word);
    }
}

// Writes the number of the first lamp lit, where there is one.
fn first_lit(text: &mut Text, first: Option<usize>)
    ensures { text.new ≡ extended text.old (rule.first_lit first) }
{
    if let Some(i) = first {
        text.put(b", first ");
        text.number(i as u64);
    }
}

// Writes the line under the rows: the number lit and the first lamp lit.
#[tactic(auto, using(crate::proofs::Extended::parts), unfolding(crate::specs::Panel::last_line))]
fn last_line(text: &mut Text, lit: u16, first: Option<usize>)
    ensures { text.new ≡ extended text.old (rule.last_line lit first) }
{
    text.put(b"lit ");
    text.number(u64::from(lit));
    first_lit(text, first);
    text.put(b"\n");
}

// Draws four rows of lamps and, under them, the number lit and the first lamp lit.
pub fn draw(out: &mut [u8], words: [u64; 4], lit: u16, first: Option<usize>) -> usize
    ensures text { Written out.old 0 (rule.drawing words lit first) out.new result }
    ensures within { result ≤ rule.most_letters }
{
    let mut text = Text::new(out);
    rows(&mut text, words);
    last_line(&mut text, lit, first);
    text.length()
}
