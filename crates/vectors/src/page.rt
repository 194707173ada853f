// This module writes the cells of an answer to standard output, each after a space.
use rules::answer::NO_DETAIL;
use rules::verdict::Check;
use std::fmt::Display;
use std::io::{Print, Stdout};
use std::iter;

// This is where the script and its answers are written. What cannot be written is left out, since nobody is there to be told; spaces, strokes and what
// stands between them are written one by one, so that no more is left out than what did not fit.
#[derive(Clone, Copy)]
pub struct Page {
    out: Stdout,
}

impl Page {
    pub fn new(out: Stdout) -> Page {
        Page { out }
    }

    // Writes octets as they stand.
    pub fn put(self, octets: &[u8]) {
        let _ = self.out.write_all(octets);
    }

    // Writes what a format says.
    fn print<D: Display + Drop>(self, text: D) {
        let _ = self.out.print(text);
    }

    // Writes a number, at least two columns wide.
    pub fn number(self, number: u64) {
        if number < 10 {
            self.put(b" ");
        }
        self.put(b" ");
        self.print(number);
    }

    // Writes what the check gives: its number, and behind a stroke the bad record, where there is one.
    pub fn checked(self, check: Check) {
        self.number(u64::from(check.number));
        if check.detail != NO_DETAIL {
            self.put(b"/");
            self.print(check.detail);
        }
    }

    // Writes a word of lamps by its hexadecimal digits.
    pub fn lamps(self, word: u64) {
        self.put(b" ");
        self.print(format_args!("{word:016x}"));
    }

    // Writes the circuit that a search found, or a dash.
    pub fn found(self, circuit: Option<usize>) {
        match circuit {
            Some(i) => self.number(i as u64),
            None => self.put(b"  -"),
        }
    }

    // Writes an octet by its hexadecimal digits.
    pub fn octet(self, octet: u8) {
        self.put(b" ");
        self.print(format_args!("{octet:02x}"));
    }

    pub fn octets(self, octets: &[u8]) {
        for octet in octets {
            self.octet(*octet);
        }
    }

    // Writes a bar after a space.
    pub fn bar(self) {
        self.put(b" ");
        self.put(b"|");
    }

    // Writes a bar, and after it the octets.
    pub fn barred(self, octets: &[u8]) {
        self.bar();
        self.octets(octets);
    }

    // Writes a bar, and after it the first `size` octets of a buffer, with zeros for those that it does not have.
    pub fn buffer(self, buffer: &[u8], size: usize) {
        self.bar();
        for octet in buffer.iter().copied().chain(iter::repeat(0)).take(size) {
            self.octet(octet);
        }
    }
}
