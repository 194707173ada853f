// These are the entries of the product, each of which but the version only calls another. C and Rust link them under the same names, by naustvri_c,
// and get what C can: numbers for refusals, and structs of its layout.

#![tactic(auto)]

ghost use Rattle.std.specs.Prelude.{◌≡◌};
ghost use Rattle.rules.specs.Records.{checked};
ghost use Rattle.fields.specs.Precedence as precedence;
ghost use Rattle.fields.specs.Reference as reference;
ghost use Rattle.optional.specs.Part.{parameter_at};
ghost use Rattle.optional.specs.Search.{find};
ghost use Rattle.optional.specs.Write as optional;
ghost use Rattle.lamps.specs.Lamps.{lamp_map};
ghost use Rattle.route.specs.Entries.{event_number, event_table, event_answer, list_number, list_table, list_answers};
ghost use Rattle.tally.specs.Entry.{figures_number, figures_table, figures_answers, figures_totals};
ghost use Rattle.naustvri.specs.Version.{version};

use rules::number::DONE;

// The version has these three parts, as in the header.
const MAJOR: u32 = 3;

const MINOR: u32 = 0;

const PATCH: u32 = 0;

pub fn naustvri_version() -> u32
    ensures number { result ≡ version }
{
    10000 * MAJOR + 100 * MINOR + PATCH
}

pub fn naustvri_read_precedence(octets: &[u8]) -> fields::precedence::Reading
    ensures reading { result ≡ precedence.read_precedence octets.now }
{
    fields::precedence::read(octets).into()
}

pub fn naustvri_write_precedence(buffer: &mut [u8], value: fields::precedence::Precedence) -> u8
    ensures number { result ≡ precedence.write_number buffer.old value }
    ensures buffer { buffer.new ≡ precedence.write_buffer buffer.old value }
{
    fields::refusal::number(fields::precedence::write(buffer, value))
}

pub fn naustvri_read_reference(octets: &[u8]) -> fields::reference::Reading
    ensures reading { result ≡ reference.read_reference octets.now }
{
    fields::reference::read(octets).into()
}

pub fn naustvri_write_reference(buffer: &mut [u8], value: fields::reference::Reference) -> u8
    ensures number { result ≡ reference.write_number buffer.old value }
    ensures buffer { buffer.new ≡ reference.write_buffer buffer.old value }
{
    fields::refusal::number(fields::reference::write(buffer, value))
}

pub fn naustvri_next_parameter(part: &[u8], place: usize) -> optional::part::Parameter
    ensures reading { result ≡ parameter_at part.now place }
{
    optional::part::parameter_at(part, place)
}

pub fn naustvri_find_precedence(part: &[u8]) -> optional::search::Found
    ensures reading { result ≡ find part.now }
{
    optional::search::find(part).into()
}

pub fn naustvri_write_optional(buffer: &mut [u8], list: &[u8]) -> optional::write::Written
    ensures result { result ≡ optional.write buffer.old list.now }
    ensures buffer { buffer.new ≡ optional.write_buffer buffer.old list.now }
{
    optional::write::write(buffer, list).into()
}

pub fn naustvri_check(table: &[u8]) -> rules::verdict::Check
    ensures reading { result ≡ checked table.now }
{
    validity::check(table)
}

pub fn naustvri_event(table: &mut [u8], event: &[u8], answer: &mut [u8]) -> u8
    ensures number { result ≡ event_number table.old event.now answer.old }
    ensures table { table.new ≡ event_table table.old event.now answer.old }
    ensures answer { answer.new ≡ event_answer table.old event.now answer.old }
{
    match route::event(table, event, answer) {
        Ok(number) => number,
        Err(refusal) => u8::from(refusal),
    }
}

pub fn naustvri_list(table: &mut [u8], events: &[u8], answers: &mut [u8]) -> u8
    ensures number { result ≡ list_number table.old events.now answers.old }
    ensures table { table.new ≡ list_table table.old events.now answers.old }
    ensures answers { answers.new ≡ list_answers table.old events.now answers.old }
{
    match route::list(table, events, answers) {
        Ok(()) => DONE,
        Err(refusal) => u8::from(refusal),
    }
}

pub fn naustvri_figures(
    table: &mut [u8],
    events: &[u8],
    answers: &mut [u8],
    figures: &mut [u64],
) -> u8
    ensures number { result ≡ figures_number table.old events.now answers.old figures.old }
    ensures table { table.new
        ≡ figures_table table.old events.now answers.old figures.old }
    ensures answers { answers.new
        ≡ figures_answers table.old events.now answers.old figures.old }
    ensures figures { figures.new
        ≡ figures_totals table.old events.now answers.old figures.old }
{
    match tally::list(table, events, answers, figures) {
        Ok(()) => DONE,
        Err(refusal) => u8::from(refusal),
    }
}

pub fn naustvri_lamps(table: &[u8]) -> lamps::Lamps
    ensures reading { result ≡ lamp_map table.now }
{
    lamps::map(table)
}
