// The lamp map is four words of 64 lamps, lit where a circuit is free, and the number lit.

#![tactic(auto)]

ghost use Rattle.std.specs.Prelude.{◌≡◌, ◌≤◌, ◌<◌};
ghost use Rattle.lamps.specs.Lamps.{lit_at, word, number_in, lowest_in, lit_map, dark_map, lamp_map};
ghost use Rattle.rules.specs.Records.{circuits, most_circuits};

use rules::answer::NO_DETAIL;
use rules::number;
use rules::verdict::Check;
use table::Record;

// This is what C and the panel get: the check's number and detail, how many lamps are lit, and the lamps.
#[repr(C)]
#[derive(Clone, Copy)]
pub struct Lamps {
    pub number: u8,
    pub lit: u16,
    pub detail: u16,
    pub words: [u64; 4],
}

// Builds word j from its top lamp down: each lamp moves those above it up by one bit.
fn word(t: &[u8], j: usize) -> u64
    requires { j < 4 }
    ensures { result ≡ word (lit_at t.now) j }
{
    let base = 64 * j;
    let mut w: u64 = 0;
    for i in (0..table::count(t).saturating_sub(base).min(64)).rev() {
        let number = base + i;
        w = 2 * w + u64::from(Record { table: t, number }.free());
    }
    w
}

// Counts the lamps that are lit in four words.
fn number_in(words: [u64; 4]) -> u16
    ensures { result ≡ number_in words }
{
    let mut n: u32 = 0;
    for word in words {
        n += word.count_ones();
    }
    n as u16
}

// Finds the lowest lit lamp: in the first word that is not 0, it is the bit above the trailing zeros.
pub fn lowest(words: [u64; 4]) -> Option<usize>
    ensures lamp { result ≡ lowest_in words }
{
    for (j, word) in words.iter().enumerate() {
        if *word != 0 {
            return Some(64 * j + word.trailing_zeros() as usize);
        }
    }
    None
}

// Gives the lamp map of a table's circuits.
fn lit_map(t: &[u8]) -> Lamps
    requires { circuits t.now ≤ most_circuits }
    ensures { result ≡ lit_map t.now }
{
    let words = [word(t, 0), word(t, 1), word(t, 2), word(t, 3)];
    let lit = number_in(words);
    Lamps {
        number: number::DONE,
        lit,
        detail: NO_DETAIL,
        words,
    }
}

// Gives the map where the check refuses the table: number and detail are the check's, and every lamp is dark.
fn dark(refused: Check) -> Lamps
    ensures { result ≡ dark_map refused }
{
    let words = [0u64; 4];
    Lamps {
        number: refused.number,
        lit: 0,
        detail: refused.detail,
        words,
    }
}

// Gives the map of a valid table; where the check refuses it, every lamp is dark.
pub fn map(t: &[u8]) -> Lamps
    ensures reading { result ≡ lamp_map t.now }
{
    let check = validity::check(t);
    if check.number != number::DONE {
        return dark(check);
    }
    lit_map(t)
}
