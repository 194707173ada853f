// A field is read or written, or refused; C gets each refusal as a number.
ghost use Rattle.std.specs.Prelude.{◌≡◌, [], is_some, unwrap_or};
ghost use Rattle.rules.specs.Numbers.{done, wrong_length};
ghost use Rattle.fields.specs.declared.refusal.Refused.TheVariants.{Malformed};
ghost use Rattle.fields.specs.Given.{refused_number, number_of, given};

use rules::number;

// A field is refused for the length of its octets, or for a value that does not fit.
#[derive(Clone, Copy, PartialEq, Eq, Debug)]
pub enum Refused {
    WrongLength,
    Malformed,
}

impl From<Refused> for u8 {
    ghost from_gives = { λ why number. number ≡ refused_number why };

    fn from(why: Refused) -> u8 {
        match why {
            Refused::WrongLength => number::WRONG_LENGTH,
            Refused::Malformed => number::MALFORMED,
        }
    }
}

// Fills a buffer of N octets with those of a field, or writes nothing for a buffer of another length or where there are none.
pub(crate) fn fill<const N: usize>(
    buffer: &mut [u8],
    octets: Option<[u8; N]>,
) -> Result<(), Refused>
    ensures number { number_of result ≡ given N buffer.old (is_some octets.entry) done (refused_number Malformed) wrong_length }
    ensures buffer { buffer.new ≡ given N buffer.old (is_some octets.entry) (unwrap_or octets.entry []) buffer.old buffer.old }
{
    let buffer = buffer.as_mut_array::<N>().ok_or(Refused::WrongLength)?;
    *buffer = octets.ok_or(Refused::Malformed)?;
    Ok(())
}

// Gives the number of a field that was written or is refused.
pub fn number(written: Result<(), Refused>) -> u8
    ensures { result ≡ number_of written }
{
    written.map_or_else(u8::from, |()| number::DONE)
}
