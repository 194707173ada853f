// These rows read and write the two message fields.
use crate::page::Page;
use crate::script::{ROW, Row, UNWRITTEN};
use fields::precedence::Precedence;
use fields::reference::Reference;
use fields::refusal::Refused;
use fields::{precedence, reference, refusal};

// Writes the values of precedence: LFB, level and digits; service domain.
pub fn values(page: Page, value: Precedence) {
    page.barred(&[value.lfb, value.level]);
    page.octets(&value.digits);
    page.number(u64::from(value.service));
}

// Reads a parameter of the row's octets: number; its values.
pub fn read_precedence(page: Page, row: &Row) {
    let r = precedence::Reading::from(precedence::read(row.given()));
    page.number(u64::from(r.number));
    values(page, r.value);
}

// Reads a reference of the row's octets: number, identity, point code.
pub fn read_reference(page: Page, row: &Row) {
    let r = reference::Reading::from(reference::read(row.given()));
    page.number(u64::from(r.number));
    page.number(u64::from(r.value.identity));
    page.number(u64::from(r.value.point));
}

// Writes LFB, level, four digits and service domain of a row, which stand after the size of the buffer.
pub fn write_precedence(row: &Row, buffer: &mut [u8]) -> Result<(), Refused> {
    let [lfb, level] = row.part::<2>(1);
    let value = Precedence {
        level,
        lfb,
        digits: row.part(3),
        service: u32::from_le_bytes(row.part(7)),
    };
    precedence::write(buffer, value)
}

// Writes identity and point code of a row, which stand after the size of the buffer.
pub fn write_reference(row: &Row, buffer: &mut [u8]) -> Result<(), Refused> {
    let value = Reference {
        identity: u32::from_le_bytes(row.part(1)),
        point: u16::from_le_bytes(row.part(5)),
    };
    reference::write(buffer, value)
}

// Writes the values of a row into a buffer of as many octets as its first one says, as a field.
pub fn written<F: FnOnce(&Row, &mut [u8]) -> Result<(), Refused>>(page: Page, row: &Row, write: F)
    requires { F.IsAlwaysCallable write }
{
    let size = usize::from(row.first());
    let mut buffer = [UNWRITTEN; ROW];
    let written = write(row, &mut buffer[..size.min(ROW)]);
    page.number(u64::from(refusal::number(written)));
    page.buffer(&buffer, size);
}
