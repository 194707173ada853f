// These rows read and write an optional part.
use crate::field;
use crate::page::Page;
use crate::script::{ROW, Row, UNWRITTEN};
use optional::search::Found;
use optional::write::Written;
use optional::{part, search, write};

// A list of one long parameter, and the part of it, have room for more octets than contents may have.
const LONG: usize = 600;

// Finds precedence in a part: number, whether it was found, where it starts, where the part ends; its values.
pub fn found(page: Page, part: &[u8]) {
    let r = Found::from(search::find(part));
    page.number(u64::from(r.number));
    page.number(u64::from(r.found));
    page.number(r.start as u64);
    page.number(r.end as u64);
    field::values(page, r.value);
}

// Takes one step from the place that the row's first octet says, in the part of its others: number, name, length; start and next.
pub fn step(page: Page, row: &Row) {
    let p = part::parameter_at(row.rest(), usize::from(row.first()));
    page.number(u64::from(p.number));
    page.number(u64::from(p.name));
    page.number(u64::from(p.length));
    page.bar();
    page.number(p.start as u64);
    page.number(p.next as u64);
}

// Writes a list into a buffer, and gives its number and end.
fn put(page: Page, buffer: &mut [u8], list: &[u8]) {
    let r = Written::from(write::write(buffer, list));
    page.number(u64::from(r.number));
    page.number(r.end as u64);
}

// Writes the list of the row's other octets into a buffer of as many octets as its first one says.
pub fn written(page: Page, row: &Row) {
    let size = usize::from(row.first());
    let mut buffer = [UNWRITTEN; ROW];
    put(page, &mut buffer[..size.min(ROW)], row.rest());
    page.buffer(&buffer, size);
}

// Writes a list of one parameter into a buffer, and finds precedence in that: the name, how many octets of contents, each 1, and how many the buffer has.
pub fn long(page: Page, row: &Row) {
    let count = usize::from(u16::from_le_bytes(row.part(1)));
    let size = usize::from(u16::from_le_bytes(row.part(3)));
    let mut list = [1; LONG];
    let mut buffer = [UNWRITTEN; LONG];
    list[..3].copy_from_slice(&row.part::<3>(0));
    let part = &mut buffer[..size.min(LONG)];
    put(page, part, &list[..(count + 3).min(LONG)]);
    page.bar();
    found(page, part);
}
