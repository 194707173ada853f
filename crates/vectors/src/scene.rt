// A scene of the script has circuits, a table, its events one by one, and the same events as a list.
use crate::asked;
use crate::page::Page;
use crate::played::{LIST, Played};
use crate::route_table::{ROOM, Table};
use crate::script::{ROW, Row, UNWRITTEN};
use events::ANSWER_SIZE;
use lines::event::MOST_LETTERS;
use route::WrongLength;
use rules::number::DONE;
use table::CIRCUIT_SIZE;

// This octet of a circuit is the low octet of its holder's identity.
const IDENTITY: usize = 7;

// This is a scene as far as it has come. An answer to one of its events has `answer_size` octets.
#[derive(Clone, Copy)]
pub struct Scene {
    circuits: [u8; ROOM],
    table: Table,
    played: Played,
    answer_size: usize,
}

// Writes the program's line for the answer to an event. The text is measured here, since no other text of the script is, and `streams::print` would say on
// standard error what a page leaves out.
fn line(page: Page, event: u64, answer: [u8; ANSWER_SIZE]) {
    let mut text = [0; MOST_LETTERS];
    let length = lines::event::line(&mut text, event, answer);
    page.put(b" | ");
    page.put(&text[..length]);
}

// Writes what a comparison says, and of what.
fn compared(page: Page, same: bool, what: &[u8]) {
    page.put(if same { b", the same" } else { b", OTHER" });
    page.put(what);
}

// Writes the first four circuits of a table.
fn circuits(page: Page, table: &[u8]) {
    for circuit in table.chunks_exact(CIRCUIT_SIZE).take(4) {
        page.put(b"=");
        page.barred(circuit);
        page.put(b"\n");
    }
}

impl Scene {
    // A scene begins with every circuit free.
    fn new() -> Scene {
        let circuits = [0; ROOM];
        Scene {
            circuits,
            table: Table::new(circuits, 0),
            played: Played::new(),
            answer_size: ANSWER_SIZE,
        }
    }

    // Stores a circuit.
    fn store(&mut self, number: u8, circuit: [u8; CIRCUIT_SIZE]) {
        let at = CIRCUIT_SIZE * usize::from(number);
        octets::write(&mut self.circuits, at, &circuit);
    }

    // Stores a circuit as circuit 0 and again after every so many others, with its own number as the identity of its holder.
    fn store_every(&mut self, others: u8, mut circuit: [u8; CIRCUIT_SIZE]) {
        for number in (0..=u8::MAX).step_by(1 + usize::from(others)) {
            circuit[IDENTITY] = number;
            self.store(number, circuit);
        }
    }

    // Begins a table of the circuits, of so many octets.
    fn begin_table(&mut self, length: u16) {
        self.table = Table::new(self.circuits, usize::from(length));
    }

    // Plays one event by itself: what came back, and the octets of the answer. Keeps it with its answer for the list.
    fn event(&mut self, page: Page, row: &Row) {
        let mut buffer = [UNWRITTEN; ROW];
        let size = self.answer_size.min(ROW);
        let number = route::event(self.table.octets_mut(), row.given(), &mut buffer[..size]);
        let answer = events::answer_at(&buffer, 0);
        page.put(b"=");
        page.number(u64::from(number.unwrap_or_else(u8::from)));
        page.buffer(&buffer, self.answer_size);
        match number {
            Ok(_) => line(page, self.played.next_number(), answer),
            Err(WrongLength) => page.put(b"\n"),
        }
        self.played.keep(row.part(0), answer);
    }

    // Compares what a list left with what the events one by one left, octets behind a table with them.
    fn list_compared(&self, page: Page, places: &[u8; LIST], table: &Table) {
        let answers = self.played.answers();
        compared(page, places.starts_with(answers), b" answers");
        compared(page, *table == self.table, b" table\n");
        circuits(page, self.table.octets());
    }

    // Plays the events as a list over the circuits, and compares what it leaves with the events one by one.
    fn list(&self, page: Page, row: &Row) {
        let mut table = self.table.over(self.circuits);
        let events = self.played.list();
        let mut places = [UNWRITTEN; LIST];
        let given = self.played.and_more(row.part(0));
        let wanted = self.played.and_more(row.part(3));
        let done = route::list(table.octets_mut(), &events[..given], &mut places[..wanted]);
        page.put(b"=");
        page.number(u64::from(done.map_or_else(u8::from, |()| DONE)));
        if places.iter().all(|octet| *octet == UNWRITTEN) {
            page.put(b", nothing written");
        }
        self.list_compared(page, &places, &table);
    }

    // Plays a row by its letter. The letters are those that the script's head lists, and an enum would name each once more.
    fn play(&mut self, page: Page, row: &Row) {
        match row.letter {
            0 => *self = Scene::new(),
            b'c' => self.store(row.first(), row.part(1)),
            b'h' => self.store_every(row.first(), row.part(1)),
            b't' => self.begin_table(u16::from_be_bytes(row.part(0))),
            b'a' => self.answer_size = usize::from(row.first()),
            b'e' => self.event(page, row),
            b'l' => self.list(page, row),
            b'A'..=b'Z' => asked::asked(page, &self.table, row),
            _ => {}
        }
    }

    // Writes a line as it stands, and plays it.
    fn turn(&mut self, page: Page, line: &[u8]) {
        page.put(line);
        page.put(b"\n");
        self.play(page, &Row::read(line));
    }
}

// Plays every line of the script.
pub fn play(page: Page, script: &[u8]) {
    let mut scene = Scene::new();
    for line in script.split_inclusive(|letter| *letter == b'\n') {
        scene.turn(page, line.strip_suffix(b"\n").unwrap_or(line));
    }
}
