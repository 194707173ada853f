// This module reads files that the program's arguments name.
ghost use Rattle.std.specs.Prelude.{◌≡◌, length, take, IfOk};
ghost use Rattle.io.specs.Counts.{IsPrefixLen};
ghost use Rattle.rules.specs.Numbers.{done};
ghost use Rattle.rules.specs.Records.{check_number};
ghost use Rattle.streams.specs.Table.{Checked};

use crate::{Reported, checked, fail, file, no_table};
use std::env::{Env, FillError};
use std::io;
use std::io::{ErrorKind, Print};

// A name has this room: one octet more than the longest path that a file may have.
pub const ROOM: usize = 4096;

// This is the system's number for a name that is too long.
const TOO_LONG: i32 = 36;

// Gives room for a name.
pub fn space() -> [u8; ROOM]
    ensures { 4096 ≡ length result }
{
    [0; ROOM]
}

// Says why no file has a name that is not UTF-8 text. One that fills its room may have been cut within a letter.
pub fn refused(name: &[u8]) -> io::Error {
    if name.len() < ROOM {
        return io::Error::new(ErrorKind::InvalidFilename, "the name is not UTF-8");
    }
    io::Error::from_raw_os_error(TOO_LONG)
}

// Says on standard error what is amiss, and why.
pub fn say(rt: &HostRuntime, what: &[u8], why: &[u8]) -> Reported {
    let error = rt.stderr();
    for part in [what, b": ", why, b"\n"] {
        let _ = error.write_all(part);
    }
    Reported
}

// Counts the program's arguments, its own name as the first of them.
pub fn count(rt: &HostRuntime) -> usize {
    let mut space = [0u8; 1];
    for i in 0..usize::MAX {
        if let Err(FillError::NotPresent) = rt.arg(i, &mut space) {
            return i;
        }
    }
    usize::MAX
}

// Puts argument i into the buffer and gives its length, and no slice, as `streams::table` does. One that is too long is cut to the buffer's
// length: no file of that name is opened where the buffer is longer than a path may be. One that is not there has no octets, since this could never
// fail.
pub fn name(rt: &HostRuntime, i: usize, buffer: &mut [u8]) -> usize
    ensures { IsPrefixLen result buffer.new }
{
    match rt.arg(i, buffer) {
        Ok(n) => n,
        Err(FillError::TooLong) => buffer.len(),
        Err(FillError::NotPresent) => 0,
    }
}

// Says on standard error why the file of this name cannot be read, and writes the only line that there is then.
fn unread(rt: &HostRuntime, name: &[u8], why: io::Error) -> Reported {
    fail(rt, name, why);
    no_table(rt)
}

// Reads the table from the file of this name and gives its length. Where there is none, or the check refuses it, the only line says so, and
// standard error names the file.
fn table_of(rt: &HostRuntime, name: &[u8], buffer: &mut [u8]) -> Result<usize, Reported>
    ensures table { IfOk result (Checked buffer.new) }
    ensures valid { IfOk result (λ n. check_number (take n buffer.new) ≡ done) }
{
    let n = file(rt, name, buffer).map_err(|why| unread(rt, name, why))?;
    checked(rt, n, buffer).map_err(|_| say(rt, name, b"bad table"))
}

// Reads the table from the file that argument i names, as `table_of` does.
pub fn table(rt: &HostRuntime, i: usize, buffer: &mut [u8]) -> Result<usize, Reported>
    ensures table { IfOk result (Checked buffer.new) }
    ensures valid { IfOk result (λ n. check_number (take n buffer.new) ≡ done) }
{
    let mut space = space();
    let n = name(rt, i, &mut space);
    table_of(rt, &space[..n], buffer)
}
