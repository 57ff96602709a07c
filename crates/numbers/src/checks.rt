// The tests of a system of numbers, refusals 1, 2, 19 and 20, and of the room for as many records, refusal 10.
ghost use Rattle.std.specs.Prelude.{◌≤◌, ◌≡◌, Bool};
ghost use Rattle.numbers.specs.Refusals.{letters_room, numbers_room, numbers_system_rules};

use crate::record::{NUMBERS_RECORD, check_record};
use records::answers::{Refusal, check_that};
use records::record::RECORD;
use records::refusals::Reason;
use slots::checks::{check_room, check_system};

// The bytes of 16 records of numbers, the most that a system has.
const LONGEST_SYSTEM: usize = 2048;

// Refusals 2 and 1, then 19, and on the way back 20, record by record.
fn check_numbers(numbers: &[u8], back: bool) -> Result<(), Refusal>
    ensures { result ≡ numbers_system_rules back numbers.now }
{
    let short = check_that(numbers.len() <= LONGEST_SYSTEM, Reason::SystemTooLong, 0);
    let Ok(()) = short else {
        return short;
    };
    let (records, rest) = numbers.as_chunks();
    let even = check_that(rest.is_empty(), Reason::SystemUneven, 0);
    let Ok(()) = even else {
        return even;
    };
    for (k, record) in records.iter().enumerate() {
        let checked = check_record(record, back, k * NUMBERS_RECORD);
        let Ok(()) = checked else {
            return checked;
        };
    }
    Ok(())
}

// The tests of a system of numbers, and then refusal 10: room for as many records, each of `size` bytes.
pub fn check_numbers_room(
    numbers: &[u8],
    back: bool,
    size: usize,
    room: usize,
) -> Result<(), Refusal>
    requires { size ≤ 128 }
    ensures { result ≡ numbers_room back numbers.now size room }
{
    let checked = check_numbers(numbers, back);
    let Ok(()) = checked else {
        return checked;
    };
    let n = numbers.len() / NUMBERS_RECORD;
    check_room(n * size, room)
}

// The tests of a system of letters, and then refusal 10: room for as many records of numbers.
pub fn check_letters_room(system: &[u8], room: usize) -> Result<(), Refusal>
    ensures { result ≡ letters_room system.now room }
{
    let checked = check_system(system);
    let Ok(()) = checked else {
        return checked;
    };
    let n = system.len() / RECORD;
    check_room(n * NUMBERS_RECORD, room)
}
