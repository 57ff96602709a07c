// The tests of a system of records, refusals 1 to 5, and of the room for its words, refusal 10.
ghost use Rattle.std.specs.Prelude.{◌≡◌};
ghost use Rattle.slots.specs.Refusals.{system_room, system_rules, word_room};

use records::answers::{Refusal, check_that};
use records::record::{RECORD, check_record};
use records::refusals::Reason;

// The bytes of 16 records, the most that a system has.
const LONGEST_SYSTEM: usize = 1024;

// Refusals 2 and 1, then 3 to 5 record by record.
pub fn check_system(system: &[u8]) -> Result<(), Refusal>
    ensures { result ≡ system_rules system.now }
{
    let short = check_that(system.len() <= LONGEST_SYSTEM, Reason::SystemTooLong, 0);
    let Ok(()) = short else {
        return short;
    };
    let (records, rest) = system.as_chunks();
    let even = check_that(rest.is_empty(), Reason::SystemUneven, 0);
    let Ok(()) = even else {
        return even;
    };
    for (k, record) in records.iter().enumerate() {
        let checked = check_record(record, k * RECORD);
        let Ok(()) = checked else {
            return checked;
        };
    }
    Ok(())
}

// Refusal 10.
pub fn check_room(output: usize, room: usize) -> Result<(), Refusal>
    ensures { result ≡ word_room output room }
{
    check_that(output <= room, Reason::WordsBufferShort, 0)
}

// Refusals 1 to 5, then 10: a system, and room for its words.
pub fn check_system_room(system: &[u8], room: usize) -> Result<(), Refusal>
    ensures { result ≡ system_room system.now room }
{
    let checked = check_system(system);
    let Ok(()) = checked else {
        return checked;
    };
    let n = system.len() / RECORD;
    check_room(n * RECORD, room)
}
