// This module writes the line of an event, and the lines that stand alone.
ghost use Rattle.std.specs.Prelude.{◌≡◌, ◌≤◌};
ghost use Rattle.lines.specs.Text.{field, Written};
ghost use Rattle.lines.specs.Extended.{extended};
ghost use Rattle.lines.specs.Event.{most_letters};
ghost use Rattle.lines.specs.Event as rule;

use crate::text::{Text, whole};
use events::{ANSWER_SIZE, Lost};
use fields::reference::Reference;
use rules::answer::NO_DETAIL;
use rules::verdict::Check;

// Writes the detail of an answer, after a space.
fn detail(text: &mut Text, n: u16)
    ensures { text.new ≡ extended text.old (field (rule.detail n)) }
{
    if n == NO_DETAIL {
        text.put(b" -");
    } else {
        text.field(u64::from(n));
    }
}

// Writes the call reference of a party that was lost, after a space.
fn named(text: &mut Text, v: Reference)
    ensures { text.new ≡ extended text.old (field (rule.named v)) }
{
    text.field(u64::from(v.identity));
    text.put(b"/");
    text.number(u64::from(v.point));
}

// Writes a lost party, after a space: its call reference, or a dash where nobody was lost.
#[tactic(auto, using(crate::proofs::Extended::parts), unfolding(crate::specs::Event::party))]
fn party(text: &mut Text, lost: Lost)
    ensures { text.new ≡ extended text.old (field (rule.party lost)) }
{
    match events::lost(lost) {
        Some(reference) => named(text, Reference::from(reference)),
        None => text.put(b" -"),
    }
}

// Writes the first four fields of the line of event n: its number, and the number, the cause and the detail of its answer.
fn numbers(text: &mut Text, n: u64, a: [u8; ANSWER_SIZE])
    ensures { text.new ≡ extended text.old (rule.numbers n a) }
{
    text.number(n);
    text.field(u64::from(events::number(a)));
    text.field(u64::from(events::cause(a)));
    detail(text, events::detail(a));
}

// The line of an event has at most 65 letters, its end counted.
pub const MOST_LETTERS: usize = 65;

// Writes the line of event n, by the record of its answer.
pub fn line(out: &mut [u8], n: u64, a: [u8; ANSWER_SIZE]) -> usize
    ensures text { Written out.old 0 (rule.line n a) out.new result }
    ensures end { result ≤ most_letters }
{
    let mut text = Text::new(out);
    numbers(&mut text, n, a);
    party(&mut text, events::lost_call(a));
    party(&mut text, events::lost_reservation(a));
    text.put(b"\n");
    text.length()
}

// Writes the line above those of the events.
pub fn header(out: &mut [u8]) -> usize
    ensures { Written out.old 0 rule.header out.new result }
{
    whole(out, b"event answer cause number call reservation\n")
}

// Writes the line after those of the events, where n octets were left over.
pub fn short(out: &mut [u8], n: u64) -> usize
    ensures text { Written out.old 0 (rule.short n) out.new result }
    ensures end { result ≤ 41 }
{
    let mut text = Text::new(out);
    text.numbered(b"short ", n);
    text.length()
}

// Writes the only line that there is where there is no table file.
pub fn no_table(out: &mut [u8]) -> usize
    ensures { Written out.old 0 rule.no_table out.new result }
{
    whole(out, b"no table\n")
}

// Writes the record that is bad after a space, where there is one.
fn bad_record(text: &mut Text, n: u16)
    ensures { text.new ≡ extended text.old (rule.bad_record n) }
{
    if n != NO_DETAIL {
        text.field(u64::from(n));
    }
}

// Writes the only line that there is where the check refuses the table.
pub fn bad_table(out: &mut [u8], refused: Check) -> usize
    ensures text { Written out.old 0 (rule.bad_table refused) out.new result }
    ensures end { result ≤ 52 }
{
    let mut text = Text::new(out);
    text.put(b"bad table ");
    text.number(u64::from(refused.number));
    bad_record(&mut text, refused.detail);
    text.put(b"\n");
    text.length()
}
