// Tidy: freely reduce every record of a system.
#![tactic(auto)]

ghost use Rattle.std.specs.Prelude.{◌*◌, ◌≡◌, take};
ghost use Rattle.records.specs.declared.answers.Verdict.TheVariants.{Done};
ghost use Rattle.slots.specs.Systems.{slots};
ghost use Rattle.tidy.specs.Meaning.{Tidied};
ghost use Rattle.tidy.specs.Tidy.{tidy_answer, tidy_buffer};

use records::answers::Answer;
use slots::checks::check_system_room;
use slots::system::System;

// Writes each record of a system, freely reduced, into the same slot of the lent buffer.
pub fn tidy(system: &[u8], words: &mut [u8]) -> Answer
    ensures answer { result ≡ tidy_answer system.now words.old }
    ensures words { words.new ≡ tidy_buffer system.now words.old }
    ensures means { result.verdict ≡ Done → Tidied system.now (take (slots system.now * 64) words.new) }
{
    let checked = check_system_room(system, words.len());
    let Ok(()) = checked else {
        return Answer::from(checked);
    };
    let mut tidied = System::new();
    tidied.load(system);
    tidied.store(words);
    Answer::from(checked)
}
