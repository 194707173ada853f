// A reader goes through an optional part parameter by parameter and keeps its place.
ghost use Rattle.std.specs.Prelude.{◌≡◌};
ghost use Rattle.optional.specs.Part.{given, Named, parameter_at, moved};

use crate::part;
use crate::part::{Fault, Standing};

// The optional part, and a place in it.
#[derive(Drop)]
pub struct Reader<'a> {
    pub part: &'a [u8],
    pub place: usize,
}

impl<'a> Reader<'a> {
    // Gives a reader that stands before the first parameter.
    pub fn new(part: &'a [u8]) -> Reader<'a>
        ensures { (result.part ≡ part.entry) × (result.place ≡ 0) }
    {
        Reader { part, place: 0 }
    }

    // Gives what stands at the reader's place, and moves it on to the next name. At the end and at a fault the reader stays, so that it is no iterator.
    pub fn step<'s>(&'s mut self) -> Result<Option<Standing>, Fault>
        ensures step { given self.old.place result ≡ parameter_at self.old.part.now self.old.place }
        ensures named { Named result }
        ensures place { self.new ≡ moved self.old (parameter_at self.old.part.now self.old.place).next }
    {
        let step = part::step(self.part, self.place)?;
        if let Some(standing) = step {
            self.place = standing.next;
        }
        Ok(step)
    }
}
