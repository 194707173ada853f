// These rows ask, and leave the scene as it is.
use crate::page::Page;
use crate::route_table::Table;
use crate::script::Row;
use crate::{field, part};
use rules::level::Level;
use rules::mark::Mark;
use rules::verdict::Check;

// Writes the circuit that a call of some level and domain gets.
fn chosen(page: Page, row: &Row, t: &[u8]) {
    let level = Level(row.first());
    let domain = row.part(1);
    page.found(choice::choose(t, Mark { level, domain }));
}

// Writes where the call with some reference holds, and where it has reserved.
fn stands(page: Page, row: &Row, t: &[u8]) {
    let reference = row.part(0);
    page.found(choice::held_by(t, reference));
    page.found(choice::reserved_by(t, reference));
}

// Writes the lamp map: number and bad record, lit, the words with the highest first, the lowest lit lamp.
fn lamp_map(page: Page, t: &[u8]) {
    let m = lamps::map(t);
    let words = m.words;
    page.checked(Check {
        number: m.number,
        detail: m.detail,
    });
    page.number(u64::from(m.lit));
    for word in words.iter().rev() {
        page.lamps(*word);
    }
    page.found(lamps::lowest(words));
}

// Writes the numbers of the five levels.
fn levels(page: Page) {
    page.barred(&Level::numbers());
}

// Writes what the check gives for a table.
fn checked(page: Page, t: &[u8]) {
    page.checked(validity::check(t));
}

// Writes which octet of a table is meant, and what the check gives where that octet is changed to each value of the row in turn.
fn changed(page: Page, row: &Row, table: &Table) {
    let place = row.first();
    page.octet(place);
    for octet in row.rest() {
        checked(page, table.changed(place, *octet).octets());
    }
}

// Answers what the letter of a row asks. The letters are those that the script's head lists, and an enum would name each once more.
fn answer(page: Page, row: &Row, table: &Table) {
    match row.letter {
        b'P' => field::read_precedence(page, row),
        b'R' => field::read_reference(page, row),
        b'Q' => field::written(page, row, field::write_precedence),
        b'S' => field::written(page, row, field::write_reference),
        b'F' => part::found(page, row.given()),
        b'D' => part::step(page, row),
        b'I' => part::written(page, row),
        b'L' => part::long(page, row),
        b'V' => checked(page, table.octets()),
        b'G' => chosen(page, row, table.octets()),
        b'W' => stands(page, row, table.octets()),
        b'X' => changed(page, row, table),
        b'N' => levels(page),
        _ => lamp_map(page, table.octets()),
    }
}

// Answers a row about the table of a scene.
pub fn asked(page: Page, table: &Table, row: &Row) {
    page.put(b"=");
    answer(page, row, table);
    page.put(b"\n");
}
