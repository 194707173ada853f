// The first pass over a list that is to be written finds all that decides: whether it is whole, the room that it needs, whether each parameter is
// sound, and how often precedence is given.
ghost use Rattle.std.specs.Prelude.{◌≡◌, ◌+◌, ◌^◌, ◌<◌, length};
ghost use Rattle.optional.specs.List.{item_of};
ghost use Rattle.optional.specs.Write.{sound};
ghost use Rattle.optional.specs.Survey.{Surveyed, number_of, further, begun, judged};

use crate::list::{Entries, Entry};
use crate::part;
use crate::write::Refused;
use fields::precedence;

// The most octets that the contents of a parameter have.
const CONTENTS_MOST: usize = 255;

// What parameters need and give together: the room of their part, whether each may be written, and how often precedence is given.
#[derive(Clone, Copy, PartialEq, Eq, Debug)]
pub struct Survey {
    pub room: usize,
    pub sound: bool,
    pub precedences: usize,
}

// Tells whether a parameter may be written.
fn sound(entry: Entry) -> bool
    ensures { result ≡ sound (item_of entry.entry) }
{
    entry.name != part::END
        && entry.contents.len() <= CONTENTS_MOST
        && (entry.name != part::PRECEDENCE || precedence::read(entry.contents).is_ok())
}

impl Survey {
    // Gives the survey before the first parameter: the end takes an octet.
    fn begun() -> Survey
        ensures { result ≡ begun }
    {
        Survey {
            room: 1,
            sound: true,
            precedences: 0,
        }
    }

    // Gives the survey with one parameter more.
    fn further(self, entry: Entry) -> Survey
        requires room_fits { self.room + (2 + length entry.contents.now) < 2 ^ 64 }
        requires precedences_below_room { self.precedences < self.room }
        ensures { result ≡ further self (item_of entry.entry) }
    {
        Survey {
            room: self.room + (2 + entry.contents.len()),
            sound: self.sound && sound(entry),
            precedences: self.precedences + usize::from(entry.name == part::PRECEDENCE),
        }
    }

    // Tells by the first refusal that the surveyed list is not to be written into a buffer of so many octets.
    #[tactic(auto, unfolding(crate::specs::Survey::judged))]
    pub fn judged(self, size: usize) -> Result<(), Refused>
        ensures { number_of result ≡ judged self size }
    {
        if size < self.room {
            return Err(Refused::WrongLength);
        }
        if !self.sound {
            return Err(Refused::Malformed);
        }
        if 1 < self.precedences {
            return Err(Refused::PrecedenceTwice);
        }
        Ok(())
    }
}

// Surveys a list, or gives nothing where it is cut short.
#[tactic(auto, using(crate::proofs::Surveying::says, crate::proofs::Surveying::lent_within))]
pub fn of_list(list: &[u8]) -> Option<Survey>
    ensures { Surveyed list.now result }
{
    let mut survey = Survey::begun();
    for entry in Entries(list) {
        survey = survey.further(entry?);
    }
    Some(survey)
}
