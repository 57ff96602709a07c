// Show: the reduced record of a slot, or the given record where that slot is blank.
#![tactic(auto)]

ghost use Rattle.std.specs.Prelude.{◌≡◌};
ghost use Rattle.show.specs.Show.{shown};

use records::record::{RECORD, STOP};

// The record shown for a slot, as a part of one of the two systems, or an empty part under refusal 14.
pub fn show<'a>(reduced: &'a [u8], given: &'a [u8], slot: u8) -> &'a [u8]
    ensures { result.now ≡ shown reduced.now given.now slot }
{
    let nothing = &reduced[..0];
    if reduced.len() != given.len() || reduced.len() % RECORD != 0 {
        return nothing;
    }
    if slot < b'a' || slot > b'p' {
        return nothing;
    }
    let at = (slot - b'a') as usize * RECORD;
    let Some(record) = reduced.get(at..at + RECORD) else {
        return nothing;
    };
    if record[0] == STOP {
        &given[at..at + RECORD]
    } else {
        record
    }
}
