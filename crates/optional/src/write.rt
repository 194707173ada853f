// An optional part is written from a lent list of parameters.
ghost use Rattle.std.specs.Prelude.{◌≡◌, true, ◌+◌, ◌≤◌, length};
ghost use Rattle.octets.specs.Span.{put};
ghost use Rattle.rules.specs.Fields.{level_in, lfb_in};
ghost use Rattle.fields.specs.Precedence.{first_octet};
ghost use Rattle.optional.specs.List.{item_of, items};
ghost use Rattle.optional.specs.Survey.{Writable};
ghost use Rattle.optional.specs.Write.{refused_number, written, octets_of, part_of, sound, write, write_buffer};

use crate::list::{Entries, Entry};
use crate::{part, survey};
use rules::level::Level;
use rules::{number, parameter};

// A list is refused for too little room or for being cut short, for a parameter that is malformed, or for precedence that is given twice.
#[derive(Clone, Copy, PartialEq, Eq, Debug)]
pub enum Refused {
    WrongLength,
    Malformed,
    PrecedenceTwice,
}

impl From<Refused> for u8 {
    ghost from_gives = { λ why number. number ≡ refused_number why };

    fn from(why: Refused) -> u8 {
        match why {
            Refused::WrongLength => number::WRONG_LENGTH,
            Refused::Malformed => number::MALFORMED,
            Refused::PrecedenceTwice => number::PRECEDENCE_TWICE,
        }
    }
}

// What C gets of what the writer did. The number is 0, 20, 22 or 63, and `end` is how many octets were written, its end octet with them; at a refusal it
// is 0.
#[repr(C)]
#[derive(Clone, Copy)]
pub struct Written {
    pub number: u8,
    pub end: usize,
}

impl From<Result<usize, Refused>> for Written {
    ghost from_gives = { λ end given. given ≡ written end };

    fn from(end: Result<usize, Refused>) -> Written {
        match end {
            Ok(end) => Written {
                number: number::DONE,
                end,
            },
            Err(why) => Written {
                number: u8::from(why),
                end: 0,
            },
        }
    }
}

// Gives octet 1 of precedence with its spare bits 0.
fn spareless(octet: u8) -> u8
    ensures { result ≡ first_octet (lfb_in octet) (level_in octet) }
{
    32 * parameter::lfb_in(octet) + Level::in_parameter(octet).0
}

// Writes a parameter from a place of the buffer on, and gives the place behind it. The spare bits of precedence become 0.
#[tactic(auto, using(crate::proofs::Sound::short, crate::proofs::Sound::has_six))]
fn put_entry(buffer: &mut [u8], to: usize, entry: Entry) -> usize
    requires is_sound { sound (item_of entry) ≡ true }
    requires fits { to + 2 + length entry.contents.now ≤ length buffer.old }
    ensures buffer { buffer.new ≡ put buffer.old to (octets_of (item_of entry.entry)) }
    ensures end { result ≡ to + 2 + length entry.entry.contents.now }
{
    let Entry { name, contents } = entry;
    let start = to + 2;
    octets::write(buffer, to, &[name, contents.len() as u8]);
    octets::write(buffer, start, contents);
    if name == part::PRECEDENCE {
        buffer[start] = spareless(contents[0]);
    }
    start + contents.len()
}

// Writes the parameters of a list in their order, then the end.
fn put_list(buffer: &mut [u8], list: &[u8])
    requires { Writable buffer.old list.now }
    ensures { buffer.new ≡ put buffer.old 0 (part_of (items list.now)) }
{
    let mut to = 0;
    for entry in Entries(list) {
        to = put_entry(buffer, to, entry.unwrap());
    }
    buffer[to] = part::END;
}

// Writes an optional part from a list and gives how many octets it has, or writes nothing: a list is refused for too little room or for being cut short,
// then for a parameter that is malformed, then for precedence that is given twice.
#[tactic(auto, using(crate::proofs::Judged::short, crate::proofs::Judged::refuses))]
pub fn write(buffer: &mut [u8], list: &[u8]) -> Result<usize, Refused>
    ensures result { written result ≡ write buffer.old list.now }
    ensures buffer { buffer.new ≡ write_buffer buffer.old list.now }
{
    let survey = survey::of_list(list).ok_or(Refused::WrongLength)?;
    survey.judged(buffer.len())?;
    put_list(buffer, list);
    Ok(survey.room)
}
