// This module keeps the table of a scene.
use table::{CIRCUIT_SIZE, MOST_CIRCUITS};

// A table has room for one more circuit than a table may have.
pub const ROOM: usize = CIRCUIT_SIZE * (MOST_CIRCUITS + 1);

// This is a table of `length` octets, or of all that its room has where these are fewer. The room stays whole, since the script's answer compares the
// octets behind the table too; and with a ghost bound on `length` the borrow of a part of it to be written got no proof.
#[derive(Clone, Copy, PartialEq, Eq)]
pub struct Table {
    room: [u8; ROOM],
    length: usize,
}

impl Table {
    // Gives a table of the circuits.
    pub fn new(circuits: [u8; ROOM], length: usize) -> Table {
        Table {
            room: circuits,
            length,
        }
    }

    pub fn octets(&self) -> &[u8] {
        let length = self.length.min(ROOM);
        &self.room[..length]
    }

    pub fn octets_mut(&mut self) -> &mut [u8] {
        let length = self.length.min(ROOM);
        &mut self.room[..length]
    }

    // Gives the table of the same length over other circuits.
    pub fn over(&self, circuits: [u8; ROOM]) -> Table {
        Table::new(circuits, self.length)
    }

    // Gives the table with one octet changed.
    pub fn changed(mut self, place: u8, octet: u8) -> Table {
        self.room[usize::from(place)] = octet;
        self
    }
}
