// Precedence is searched for in an optional part: the search goes to the end of the part or to its first fault.
ghost use Rattle.std.specs.Prelude.{◌≡◌, ◌+◌, ◌^◌, ◌<◌};
ghost use Rattle.optional.specs.Search.{Lies, had, after, noted, standing_at, ended_at, found, find};

use crate::part;
use crate::part::{Fault, Standing};
use crate::reader::Reader;
use fields::precedence;
use fields::precedence::Precedence;
use rules::number;

// Precedence that stands in a part: where its six octets start, and what they say.
#[derive(Clone, Copy)]
pub struct PrecedenceAt {
    pub start: usize,
    pub value: Precedence,
}

// What was found in a part that goes to its end: precedence, if it has any, and how many octets it has, its end octet with them.
#[derive(Clone, Copy)]
pub struct Searched {
    pub precedence: Option<PrecedenceAt>,
    pub end: usize,
}

// What C gets of a search. The number is 0, 61, 62, 63 or 22. Where there is precedence, `found` is 1 and `start` is the place of its six octets. `end` is
// how many octets the part has, its end octet with them. At a refusal all but the number is zero.
#[repr(C)]
#[derive(Clone, Copy, Default)]
pub struct Found {
    pub number: u8,
    pub found: u8,
    pub start: usize,
    pub end: usize,
    pub value: Precedence,
}

impl From<Result<Searched, Fault>> for Found {
    ghost from_gives = { λ search given. given ≡ found search };

    fn from(search: Result<Searched, Fault>) -> Found {
        match search {
            Ok(searched) => {
                let found = Found {
                    number: number::DONE,
                    end: searched.end,
                    ..Found::default()
                };
                match searched.precedence {
                    Some(precedence) => Found {
                        found: 1,
                        start: precedence.start,
                        value: precedence.value,
                        ..found
                    },
                    None => found,
                }
            }
            Err(fault) => Found {
                number: u8::from(fault),
                ..Found::default()
            },
        }
    }
}

// Gives what one parameter makes of what was found before it.
#[tactic(auto, unfolding(crate::specs::Search::noted))]
fn noted(
    part: &[u8],
    before: Option<PrecedenceAt>,
    parameter: Standing,
) -> Result<Option<PrecedenceAt>, Fault>
    requires { Lies part.now parameter }
    ensures { after result ≡ noted part.now (had before) (standing_at parameter) }
{
    if parameter.name != part::PRECEDENCE {
        return Ok(before);
    }
    if before.is_some() {
        return Err(Fault::PrecedenceTwice);
    }
    let value = precedence::read(&part[parameter.start..parameter.next])?;
    Ok(Some(PrecedenceAt {
        start: parameter.start,
        value,
    }))
}

// Gives what was found in a part whose end octet stands at a place.
fn ended(precedence: Option<PrecedenceAt>, place: usize) -> Searched
    requires { place + 1 < 2 ^ 64 }
    ensures { result ≡ ended_at precedence place }
{
    Searched {
        precedence,
        end: place + 1,
    }
}

// Finds precedence in a part, which a reader goes through to its end or to its first fault.
pub fn find(part: &[u8]) -> Result<Searched, Fault>
    ensures reading { found result ≡ find part.now }
{
    let mut reader = Reader::new(part);
    let mut precedence = None;
    while let Some(parameter) = reader.step()? {
        precedence = noted(part, precedence, parameter)?;
    }
    Ok(ended(precedence, reader.place))
}
