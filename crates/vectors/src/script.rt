// This module reads the rows of the script.
ghost use Rattle.std.specs.Prelude.{◌<◌, ◌≤◌, ◌+◌};

use table::CIRCUIT_SIZE;

// A row has at most so many octets: one, and those of a circuit, with one to spare.
pub const ROW: usize = CIRCUIT_SIZE + 2;

// This octet stands in every place of a buffer before it is written.
pub const UNWRITTEN: u8 = 0xee;

// This is a row of the script: its letter, or 0 where the line is empty, as a line that begins with 0 is played too, and its octets, of which the line
// gives the first `count`. The others
// are zero.
#[derive(Drop)]
pub struct Row {
    pub letter: u8,
    octets: [u8; ROW],
    count: usize,
    ghost in_bounds: { count ≤ 34 },
}

// Gives the value of a digit: 0 to 9, and a to f, whose letters stand one after a multiple of 16.
fn digit(c: u8) -> u8
    ensures { result < 16 }
{
    (c % 16 + 9 * (c / 64)) % 16
}

// Gives the octet that stands in a column by two hexadecimal digits, or nothing where there is none.
fn octet(column: &[u8]) -> Option<u8> {
    let high = *column.first()?;
    if high <= b' ' {
        return None;
    }
    let low = column.get(1).copied().unwrap_or(0);
    Some(16 * digit(high) + digit(low))
}

impl Row {
    // Reads a line: its letter and, after a space, its octets to the first column that has none.
    pub fn read(line: &[u8]) -> Row {
        let mut row = Row {
            letter: line.first().copied().unwrap_or(0),
            octets: [0; ROW],
            count: 0,
        };
        let columns = line.get(2..).unwrap_or(&[]).chunks(3);
        for octet in columns.map_while(octet) {
            row.add(octet);
        }
        row
    }

    // Adds an octet that the line gives, where there is room.
    fn add(&mut self, octet: u8) {
        if self.count < ROW {
            self.octets[self.count] = octet;
            self.count += 1;
        }
    }

    // Gives the first octet, or zero where there is none.
    pub fn first(&self) -> u8 {
        self.octets[0]
    }

    // Gives the N octets from octet `at` on.
    pub fn part<const N: usize>(&self, at: usize) -> [u8; N]
        requires { at + N ≤ 34 }
    {
        octets::read(&self.octets, at)
    }

    // Gives the octets that the line gives.
    pub fn given(&self) -> &[u8] {
        &self.octets[..self.count]
    }

    // Gives the octets that the line gives after the first one.
    pub fn rest(&self) -> &[u8] {
        self.given().get(1..).unwrap_or(&[])
    }
}
