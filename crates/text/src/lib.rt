// Words as people write them, with powers and commutators: read gives the freely reduced record of a text, write the text of a record.
#![tactic(auto)]

ghost use Rattle.std.specs.Prelude.{length, ◌≡◌};
ghost use Rattle.text.specs.Meaning.{ReadMeans, WriteMeans};
ghost use Rattle.text.specs.Read.{read_answer, read_buffer, read_rules, read_tests};
ghost use Rattle.text.specs.ReadBack.{ReadBack};
ghost use Rattle.text.specs.Write.{write_answer, write_buffer, write_rules, writing_of};

use parsing::product;
use records::answers::{Answer, Refusal, Verdict, refuse};
use records::record::{RECORD, as_record, check_target, word_in, write_record};
use records::refusals::Reason;
use scanning::checks::{DEEPEST, check_text};
use slots::checks::check_room;
use writing::write_word;

// The room that write asks for.
const TEXT_ROOM: usize = 256;

// The answer of write: the verdict, and how many bytes its text has.
#[derive(Clone, Copy)]
pub struct Writing {
    pub verdict: Verdict,
    pub length: usize,
}

// The answer of write where a test ended the call.
impl From<Result<(), Refusal>> for Writing {
    ghost from_gives = { λ checked answer. answer ≡ writing_of checked 0 };

    fn from(checked: Result<(), Refusal>) -> Writing {
        Writing {
            verdict: Verdict::from(checked),
            length: 0,
        }
    }
}

// Reads a text and writes the freely reduced word that it stands for as a record into the lent buffer.
pub fn read(text: &[u8], word: &mut [u8]) -> Answer
    ensures answer { result ≡ read_answer text.now word.old }
    ensures word { word.new ≡ read_buffer text.now word.old }
    ensures means { ReadMeans text.now word.old result word.new }
{
    let checked = check_read(text, word.len());
    let Ok(()) = checked else {
        return Answer::from(checked);
    };
    let found = product(text, DEEPEST);
    let Some(reduced) = found.word else {
        return Answer::from(refuse(Reason::WordTooLong, 0));
    };
    write_record(reduced.letters(), &mut word[0..64]);
    Answer::from(checked)
}

// Refusals 16, 17, 18 and 10.
#[tactic(auto, unfolding(crate::specs::Read::read_tests))]
fn check_read(text: &[u8], room: usize) -> Result<(), Refusal>
    ensures { result ≡ read_tests text.now room }
{
    let checked = check_text(text);
    let Ok(()) = checked else {
        return checked;
    };
    check_room(RECORD, room)
}

// Writes the word of a record as text into the lent buffer.
pub fn write(word: &[u8], text: &mut [u8]) -> Writing
    ensures answer { result ≡ write_answer word.now text.old }
    ensures text { text.new ≡ write_buffer word.now text.old }
    ensures means { WriteMeans word.now text.old result text.new }
    ensures read_back { ReadBack word.now result text.new }
{
    let checked = check_write(word, text.len());
    let Ok(()) = checked else {
        return Writing::from(checked);
    };
    let length = write_word(word_in(as_record(word)), text);
    Writing {
        verdict: Verdict::Done,
        length,
    }
}

// Refusals 6 and 10.
#[tactic(auto, unfolding(crate::specs::Write::write_rules))]
fn check_write(word: &[u8], room: usize) -> Result<(), Refusal>
    ensures { result ≡ write_rules word.now room }
{
    let targeted = check_target(word);
    let Ok(()) = targeted else {
        return targeted;
    };
    check_room(TEXT_ROOM, room)
}
