// An optional part is parameters one behind the other, each a name octet, a length octet and contents; name 0 ends it.
ghost use Rattle.std.specs.Prelude.{◌≡◌};
ghost use Rattle.optional.specs.Part.{fault_number, given, Named, parameter_at};
ghost use Rattle.optional.specs.declared.part.Fault.TheVariants.{Malformed};

use fields::refusal::Refused;
use rules::number;

// The name that ends an optional part.
pub const END: u8 = 0;

// The name of MLPP precedence.
pub const PRECEDENCE: u8 = 58;

// A part is refused where its octets run out inside a parameter or before a name, and for precedence that is given twice or malformed.
#[derive(Clone, Copy, PartialEq, Eq, Debug)]
pub enum Fault {
    CutShort,
    NoEnd,
    PrecedenceTwice,
    Malformed,
}

impl From<Fault> for u8 {
    ghost from_gives = { λ fault number. number ≡ fault_number fault };

    fn from(fault: Fault) -> u8 {
        match fault {
            Fault::CutShort => number::PARAMETER_CUT_SHORT,
            Fault::NoEnd => number::NO_END,
            Fault::PrecedenceTwice => number::PRECEDENCE_TWICE,
            Fault::Malformed => number::MALFORMED,
        }
    }
}

// Precedence of another length is malformed too.
impl From<Refused> for Fault {
    ghost from_gives = { λ _ fault. fault ≡ Malformed };

    fn from(_why: Refused) -> Fault {
        Self::Malformed
    }
}

// A parameter that stands in a part: so many octets of contents go from `start` to `next`, where the next name stands.
#[derive(Clone, Copy, PartialEq, Eq, Debug)]
pub struct Standing {
    pub name: u8,
    pub length: u8,
    pub start: usize,
    pub next: usize,
}

// What C gets of what stands at a place. The number is 0, 61 or 62. At the end of the part and at a refusal the name, the length and the start of the
// contents are 0, and `next` is the place itself; else `next` is the place of the next name.
#[repr(C)]
#[derive(Clone, Copy, Default)]
pub struct Parameter {
    pub number: u8,
    pub name: u8,
    pub length: u8,
    pub start: usize,
    pub next: usize,
}

impl Parameter {
    // Gives what C gets of a step from a place.
    fn given(place: usize, step: Result<Option<Standing>, Fault>) -> Parameter
        ensures { result ≡ given place step }
    {
        match step {
            Ok(Some(standing)) => Parameter {
                number: number::DONE,
                name: standing.name,
                length: standing.length,
                start: standing.start,
                next: standing.next,
            },
            Ok(None) => Parameter {
                number: number::DONE,
                next: place,
                ..Parameter::default()
            },
            Err(fault) => Parameter {
                number: u8::from(fault),
                next: place,
                ..Parameter::default()
            },
        }
    }
}

// Gives the parameter at a place, or nothing where the part ends there.
#[tactic(auto, unfolding(crate::specs::Part::parameter_at))]
pub fn step(part: &[u8], place: usize) -> Result<Option<Standing>, Fault>
    ensures step { given place result ≡ parameter_at part.now place }
    ensures named { Named result }
{
    let name = *part.get(place).ok_or(Fault::NoEnd)?;
    if name == END {
        return Ok(None);
    }
    let length = *part.get(place + 1).ok_or(Fault::CutShort)?;
    let start = place + 2;
    let count = usize::from(length);
    if part.len() - start < count {
        return Err(Fault::CutShort);
    }
    Ok(Some(Standing {
        name,
        length,
        start,
        next: start + count,
    }))
}

// Gives what stands at a place, as C gets it.
pub fn parameter_at(part: &[u8], place: usize) -> Parameter
    ensures reading { result ≡ parameter_at part.now place }
{
    Parameter::given(place, step(part, place))
}
