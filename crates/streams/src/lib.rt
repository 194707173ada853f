// The programs' octets come from the table file and standard input, or from files that their arguments name, and go to standard output.

#![tactic(auto)]

pub mod named;

ghost use Rattle.std.specs.Prelude.{ℕ, List, ◌≡◌, ◌*◌, ◌%◌, ◌≤◌, length, take, IfOk};
ghost use Rattle.std.specs.Fn.{FnOnceTakesAtMut, FnOnceReturnsAtMut};
ghost use Rattle.rules.specs.Numbers.{done};
ghost use Rattle.rules.specs.Records.{event_size, most_events, check_number};
ghost use Rattle.streams.specs.Table.{Checked};
ghost use Rattle.streams.specs.End.{Ends};

use events::{EVENT_SIZE, MOST_EVENTS};
use rules::number::DONE;
use rules::verdict::Check;
use std::fs::File;
use std::io::{Print, Read, Write};
use std::{fs, io, str};
use table::{CIRCUIT_SIZE, MOST_CIRCUITS};

// This room for the table file is one octet more than the largest table has, so that a longer file is seen to be too long.
pub const TABLE_ROOM: usize = CIRCUIT_SIZE * MOST_CIRCUITS + 1;

// A full list of events has so many octets.
pub const FULL_LIST: usize = EVENT_SIZE * MOST_EVENTS;

// A line that stands alone has this room.
pub const LINE: usize = 64;

// What an error says has this room.
const REASON: usize = 256;

// This says that what is amiss was said, on standard output or standard error, and that nothing more is to be written.
#[derive(Clone, Copy)]
pub struct Reported;

// Gives room for a full list of events, or for their answers. Each such room has a function of its own, whose clause says its size in the words of those
// who use it.
pub fn list_room() -> [u8; FULL_LIST]
    ensures { event_size * most_events ≡ length result }
{
    [0; FULL_LIST]
}

// This says how many octets were read, and whether a read failed after them.
#[derive(Clone, Copy)]
pub struct Taken {
    pub octets: usize,
    pub end: io::Result<()>,
}

// Reads until the buffer is full, the input ends or a read fails; so a pipe's small pieces make one whole.
pub fn fill<R: Read>(file: &mut R, buffer: &mut [u8]) -> Taken
    ensures { result.octets ≤ length buffer.new }
{
    let mut octets = 0;
    // Each read says how far the next one starts from here, so that a `for` would be no plainer.
    while octets < buffer.len() {
        match file.read(&mut buffer[octets..]) {
            Err(why) => {
                return Taken {
                    octets,
                    end: Err(why),
                };
            }
            Ok(0) => break,
            Ok(n) => octets += n,
        }
    }
    Taken {
        octets,
        end: Ok(()),
    }
}

// This says how a list of events ended: it is full, so that another may come; the input ended, with so many octets left over after the last
// whole event; or a read failed.
#[derive(Clone, Copy)]
pub enum End {
    Full,
    Left(u8),
    Failed(io::Error),
}

// These are the whole events of a list, and how it ended.
#[derive(Clone, Copy)]
pub struct Listed<'a> {
    pub events: &'a [u8],
    pub end: End,
}

// Reads the next list of events into its room.
pub fn next_list<'a, R: Read>(file: &mut R, room: &'a mut [u8; FULL_LIST]) -> Listed<'a>
    ensures whole { length result.events.now % event_size ≡ 0 }
    ensures within { length result.events.now ≤ event_size * most_events }
    ensures end { Ends result.end (length result.events.now) }
{
    let taken = fill(file, room);
    let left = taken.octets % EVENT_SIZE;
    let end = match taken.end {
        Err(why) => End::Failed(why),
        Ok(()) if taken.octets == FULL_LIST => End::Full,
        Ok(()) => End::Left(left as u8),
    };
    Listed {
        events: &room[..taken.octets - left],
        end,
    }
}

// Gives the length of an error's words without the number that the system has for it, which stands behind them in parentheses.
fn unnumbered(words: &[u8]) -> usize
    ensures { result ≤ length words.now }
{
    match words.iter().rposition(|letter| *letter == b'(') {
        Some(n) => n.saturating_sub(1),
        None => words.len(),
    }
}

// Puts the words of an error into the text, and gives their length.
fn words(text: &mut [u8; REASON], why: io::Error) -> usize
    ensures { result ≤ 256 }
{
    let mut room = &mut text[..];
    let _ = write!(room, "{why}");
    let end = REASON.saturating_sub(room.len());
    match why.raw_os_error() {
        Some(_) => unnumbered(&text[..end]),
        None => end,
    }
}

// Says on standard error what failed, and why.
pub fn fail(rt: &HostRuntime, what: &[u8], why: io::Error) -> Reported {
    let mut text = [0u8; REASON];
    let n = words(&mut text, why);
    named::say(rt, what, &text[..n])
}

// Writes all of a text to standard output, or says on standard error why not.
pub fn write(rt: &HostRuntime, text: &[u8]) -> Result<(), Reported> {
    rt.stdout()
        .write_all(text)
        .map_err(|why| fail(rt, b"standard output", why))
}

// Has a text put into its room, and writes as much of it as was put there, as `write` does.
pub fn print<F: FnOnce(&mut [u8]) -> usize>(
    rt: &HostRuntime,
    room: &mut [u8],
    text: F,
) -> Result<(), Reported>
    requires takes { FnOnceTakesAtMut F.FnOnce text room.old }
    requires fits { (n : ℕ) (new : List ℕ) → FnOnceReturnsAtMut F.FnOnce text room.old n new → n ≤ length room.old }
{
    let n = text(room);
    write(rt, &room[..n])
}

// Opens the file of this name to be read. A name that is no UTF-8 text cannot be opened; one that fills its room is too long in any case.
pub fn open(rt: &HostRuntime, name: &[u8]) -> io::Result<File> {
    match str::from_utf8(name) {
        Ok(text) => fs::open(rt, text),
        Err(_) => Err(named::refused(name)),
    }
}

// Reads the octets of a file, which has to be opened and read to its end, or until the buffer is full, and gives their number.
fn file(rt: &HostRuntime, name: &[u8], buffer: &mut [u8]) -> io::Result<usize>
    ensures { IfOk result (λ n. n ≤ length buffer.new) }
{
    let mut opened = open(rt, name)?;
    let taken = fill(&mut opened, buffer);
    taken.end?;
    Ok(taken.octets)
}

// Writes the only line that there is where there is no table file.
fn no_table(rt: &HostRuntime) -> Reported {
    let _ = print(rt, &mut [0; LINE], lines::event::no_table);
    Reported
}

// Writes the only line that there is where the check refuses the table.
fn bad_table(rt: &HostRuntime, refused: Check) -> Reported {
    let _ = print(
        rt,
        &mut [0; LINE],
        |text| lines::event::bad_table(text, refused),
    );
    Reported
}

// Gives the length of a table that was read into the buffer. Where the check refuses it, the only line says so.
fn checked(rt: &HostRuntime, n: usize, buffer: &[u8]) -> Result<usize, Reported>
    requires { n ≤ length buffer.now }
    ensures table { IfOk result (Checked buffer.now) }
    ensures valid { IfOk result (λ n. check_number (take n buffer.now) ≡ done) }
{
    let check = validity::check(&buffer[..n]);
    if check.number != DONE {
        return Err(bad_table(rt, check));
    }
    Ok(n)
}

// Reads the table from its file and gives its length. Where there is none, or the check refuses it, the only line says so.
// A length comes and no slice, since `Checked` speaks of the buffer, and no clause says what a lent slice ends as in an `Ok`.
pub fn table(rt: &HostRuntime, buffer: &mut [u8]) -> Result<usize, Reported>
    ensures table { IfOk result (Checked buffer.new) }
    ensures valid { IfOk result (λ n. check_number (take n buffer.new) ≡ done) }
{
    let n = file(rt, b"circuits.bin", buffer).map_err(|_| no_table(rt))?;
    checked(rt, n, buffer)
}

// Writes the line for n octets that were left over after the last whole event, where there are any.
pub fn short(rt: &HostRuntime, n: u8) -> Result<(), Reported> {
    if n == 0 {
        return Ok(());
    }
    print(
        rt,
        &mut [0; LINE],
        |text| lines::event::short(text, u64::from(n)),
    )
}

// Says what comes after the last whole event: a line where octets were left over, or on standard error why a read failed.
// Nothing follows it, so that it gives nothing: where its own line cannot be written, standard error says so.
pub fn ended(rt: &HostRuntime, end: End) {
    match end {
        End::Full => {}
        End::Left(n) => {
            let _ = short(rt, n);
        }
        End::Failed(why) => {
            let _ = fail(rt, b"standard input", why);
        }
    }
}
