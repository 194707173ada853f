// C and Rust link these entries of the product, each of which only calls the one of the same name in naustvri. The header is include/naustvri.h.
// They stand again here, since only a crate that is built for C exports what it has.

#![tactic(auto)]

ghost use Rattle.std.specs.Prelude.{◌≡◌};
ghost use Rattle.rules.specs.Records.{checked};
ghost use Rattle.fields.specs.Precedence as precedence;
ghost use Rattle.fields.specs.Reference as reference;
ghost use Rattle.optional.specs.Part.{parameter_at};
ghost use Rattle.optional.specs.Search.{find};
ghost use Rattle.optional.specs.Write as optional;
ghost use Rattle.lamps.specs.Lamps.{lamp_map};
ghost use Rattle.route.specs.Entries.{event_number, event_table, event_answer, list_number, list_table, list_answers};
ghost use Rattle.tally.specs.Entry.{figures_number, figures_table, figures_answers, figures_totals};
ghost use Rattle.naustvri.specs.Version.{version};

#[unsafe(no_mangle)]
pub extern "C" fn naustvri_version() -> u32
    ensures number { result ≡ version }
{
    naustvri::naustvri_version()
}

#[unsafe(no_mangle)]
pub extern "C" fn naustvri_read_precedence(octets: &[u8]) -> fields::precedence::Reading
    ensures reading { result ≡ precedence.read_precedence octets.now }
{
    naustvri::naustvri_read_precedence(octets)
}

#[unsafe(no_mangle)]
pub extern "C" fn naustvri_write_precedence(
    buffer: &mut [u8],
    value: fields::precedence::Precedence,
) -> u8
    ensures number { result ≡ precedence.write_number buffer.old value }
    ensures buffer { buffer.new ≡ precedence.write_buffer buffer.old value }
{
    naustvri::naustvri_write_precedence(buffer, value)
}

#[unsafe(no_mangle)]
pub extern "C" fn naustvri_read_reference(octets: &[u8]) -> fields::reference::Reading
    ensures reading { result ≡ reference.read_reference octets.now }
{
    naustvri::naustvri_read_reference(octets)
}

#[unsafe(no_mangle)]
pub extern "C" fn naustvri_write_reference(
    buffer: &mut [u8],
    value: fields::reference::Reference,
) -> u8
    ensures number { result ≡ reference.write_number buffer.old value }
    ensures buffer { buffer.new ≡ reference.write_buffer buffer.old value }
{
    naustvri::naustvri_write_reference(buffer, value)
}

#[unsafe(no_mangle)]
pub extern "C" fn naustvri_next_parameter(part: &[u8], place: usize) -> optional::part::Parameter
    ensures reading { result ≡ parameter_at part.now place }
{
    naustvri::naustvri_next_parameter(part, place)
}

#[unsafe(no_mangle)]
pub extern "C" fn naustvri_find_precedence(part: &[u8]) -> optional::search::Found
    ensures reading { result ≡ find part.now }
{
    naustvri::naustvri_find_precedence(part)
}

#[unsafe(no_mangle)]
pub extern "C" fn naustvri_write_optional(
    buffer: &mut [u8],
    list: &[u8],
) -> optional::write::Written
    ensures result { result ≡ optional.write buffer.old list.now }
    ensures buffer { buffer.new ≡ optional.write_buffer buffer.old list.now }
{
    naustvri::naustvri_write_optional(buffer, list)
}

#[unsafe(no_mangle)]
pub extern "C" fn naustvri_check(table: &[u8]) -> rules::verdict::Check
    ensures reading { result ≡ checked table.now }
{
    naustvri::naustvri_check(table)
}

#[unsafe(no_mangle)]
pub extern "C" fn naustvri_event(table: &mut [u8], event: &[u8], answer: &mut [u8]) -> u8
    ensures number { result ≡ event_number table.old event.now answer.old }
    ensures table { table.new ≡ event_table table.old event.now answer.old }
    ensures answer { answer.new ≡ event_answer table.old event.now answer.old }
{
    naustvri::naustvri_event(table, event, answer)
}

#[unsafe(no_mangle)]
pub extern "C" fn naustvri_list(table: &mut [u8], events: &[u8], answers: &mut [u8]) -> u8
    ensures number { result ≡ list_number table.old events.now answers.old }
    ensures table { table.new ≡ list_table table.old events.now answers.old }
    ensures answers { answers.new ≡ list_answers table.old events.now answers.old }
{
    naustvri::naustvri_list(table, events, answers)
}

#[unsafe(no_mangle)]
pub extern "C" fn naustvri_figures(
    table: &mut [u8],
    events: &[u8],
    answers: &mut [u8],
    figures: &mut [u64],
) -> u8
    ensures number { result ≡ figures_number table.old events.now answers.old figures.old }
    ensures table { table.new
        ≡ figures_table table.old events.now answers.old figures.old }
    ensures answers { answers.new
        ≡ figures_answers table.old events.now answers.old figures.old }
    ensures figures { figures.new
        ≡ figures_totals table.old events.now answers.old figures.old }
{
    naustvri::naustvri_figures(table, events, answers, figures)
}

#[unsafe(no_mangle)]
pub extern "C" fn naustvri_lamps(table: &[u8]) -> lamps::Lamps
    ensures reading { result ≡ lamp_map table.now }
{
    naustvri::naustvri_lamps(table)
}
