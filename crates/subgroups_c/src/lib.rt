// The entries for C. Each calls the proved function of its name and puts the answer's numbers into a fixed array, which C sees as a struct.
#![tactic(auto)]

ghost use Rattle.std.specs.Prelude.{◌*◌, ◌≡◌, ℕ, List, [], ◌∷◌, length, take};
ghost use Rattle.records.specs.Answers.{refusal_number, refusal_place, verdict_number};
ghost use Rattle.tidy.specs.Meaning.{Tidied};
ghost use Rattle.tidy.specs.Tidy.{tidy_answer, tidy_buffer};
ghost use Rattle.replay.specs.Replay.{replay_answer, replay_buffer};
ghost use Rattle.multiply.specs.Multiply.{multiply_answer, multiply_buffer};
ghost use Rattle.reduction.specs.Meaning.{ReduceMeans, TestMeans};
ghost use Rattle.reduction.specs.Reduction.{reduce_answer, reduce_log, reduce_words, test_answer};
ghost use Rattle.asking.specs.Asking.{ask_answer, ask_product};
ghost use Rattle.asking.specs.Meaning.{AskMeans};
ghost use Rattle.membership.specs.Meaning.{InTurn, MemberMeans, NotRefused};
ghost use Rattle.membership.specs.Membership.{member_answer, member_log, member_product, member_words};
ghost use Rattle.text.specs.Meaning.{ReadMeans, WriteMeans};
ghost use Rattle.text.specs.Read.{read_answer, read_buffer};
ghost use Rattle.text.specs.ReadBack.{ReadBack};
ghost use Rattle.text.specs.Write.{write_answer, write_buffer};
ghost use Rattle.records.specs.declared.answers.Verdict.TheVariants.{Done};
ghost use Rattle.slots.specs.Systems.{slots};
ghost use Rattle.numbers.specs.Calls.{from_numbers_answer, from_numbers_buffer, tidy_numbers_answer, tidy_numbers_buffer, to_numbers_answer, to_numbers_buffer};
ghost use Rattle.numbers.specs.Meaning.{CameBack, TidiedNumbers, WentThere};
ghost use Rattle.numbers.specs.Records.{numbers_slots};
ghost use Rattle.tracing.specs.Meaning.{AgreesWithMember, KeptWhenRefused, TraceMeans};
ghost use Rattle.tracing.specs.Tracing.{trace_answer};
ghost use Rattle.subgroups_c.specs.Numbers.{is_backward, plain_numbers, reduction_numbers, test_numbers, write_numbers};

use graphs::Edge;
use records::answers::{Answer, Verdict};
use reduction::answers::{Reduction, Tested};

// An answer as the seven numbers that C sees as a struct.
trait Numbered {
    ghost numbers_of: { Self → List ℕ };

    fn numbers(&self) -> [u64; 7]
        ensures { result ≡ numbers_of self.now };
}

// An answer that carries its verdict alone.
impl Numbered for Answer {
    ghost numbers_of = { plain_numbers };

    fn numbers(&self) -> [u64; 7] {
        let [verdict, number, place] = verdict_numbers(self.verdict);
        [verdict, number, place, 0, 0, 0, 0]
    }
}

// The answer of test.
impl Numbered for Tested {
    ghost numbers_of = { test_numbers };

    fn numbers(&self) -> [u64; 7] {
        let [verdict, number, place] = verdict_numbers(self.verdict);
        [verdict, number, place, 0, 0, 0, u64::from(self.reduced)]
    }
}

// The answer of reduce and of member.
impl Numbered for Reduction {
    ghost numbers_of = { reduction_numbers };

    fn numbers(&self) -> [u64; 7] {
        let [verdict, number, place] = verdict_numbers(self.verdict);
        [
            verdict,
            number,
            place,
            self.moves as u64,
            self.rank as u64,
            u64::from(self.independent),
            0,
        ]
    }
}

// A verdict as a number, and the number and the place of a refusal.
fn verdict_numbers(verdict: Verdict) -> [u64; 3]
    ensures { result ≡ verdict_number verdict ∷ refusal_number verdict ∷ refusal_place verdict ∷ [] }
{
    match verdict {
        Verdict::Done => [0, 0, 0],
        Verdict::Member => [1, 0, 0],
        Verdict::NotMember => [2, 0, 0],
        Verdict::Refused(refusal) => [3, u64::from(refusal.number()), refusal.place as u64],
    }
}

// Tidy: each record of a system, freely reduced, into the same slot of the words buffer.
#[unsafe(no_mangle)]
pub extern "C" fn subgroups_tidy(system: &[u8], words: &mut [u8], numbers: &mut [u64; 7])
    ensures words { words.new ≡ tidy_buffer system.now words.old }
    ensures numbers { numbers.new ≡ plain_numbers (tidy_answer system.now words.old) }
    ensures means { (tidy_answer system.now words.old).verdict ≡ Done → Tidied system.now (take (slots system.now * 64) words.new) }
{
    let answer = tidy::tidy(system, words);
    *numbers = answer.numbers();
}

// Replay: the words after the moves of a log, which are run backward where `backward` is not 0.
#[unsafe(no_mangle)]
pub extern "C" fn subgroups_replay(
    system: &[u8],
    log: &[u8],
    backward: u8,
    words: &mut [u8],
    numbers: &mut [u64; 7],
)
    ensures words { words.new ≡ replay_buffer system.now log.now (is_backward backward) words.old }
    ensures numbers { numbers.new ≡ plain_numbers (replay_answer system.now log.now (is_backward backward) words.old) }
{
    let answer = replay::replay(system, log, backward != 0, words);
    *numbers = answer.numbers();
}

// Multiply: the freely reduced word that a product over a system's slots multiplies out to.
#[unsafe(no_mangle)]
pub extern "C" fn subgroups_multiply(
    system: &[u8],
    product: &[u8],
    word: &mut [u8],
    numbers: &mut [u64; 7],
)
    ensures word { word.new ≡ multiply_buffer system.now product.now word.old }
    ensures numbers { numbers.new ≡ plain_numbers (multiply_answer system.now product.now word.old) }
{
    let answer = multiply::multiply(system, product, word);
    *numbers = answer.numbers();
}

// Test: whether the freely reduced words of a system are reduced.
#[unsafe(no_mangle)]
pub extern "C" fn subgroups_test(system: &[u8], numbers: &mut [u64; 7])
    ensures numbers { numbers.new ≡ test_numbers (test_answer system.now) }
    ensures means { TestMeans system.now (test_answer system.now) }
{
    let answer = reduction::test::test(system);
    *numbers = answer.numbers();
}

// Reduce: the reduced words and the log of the moves.
#[unsafe(no_mangle)]
pub extern "C" fn subgroups_reduce(
    system: &[u8],
    words: &mut [u8],
    log: &mut [u8],
    numbers: &mut [u64; 7],
)
    ensures words { words.new ≡ reduce_words system.now words.old log.old }
    ensures log { log.new ≡ reduce_log system.now words.old log.old }
    ensures numbers { numbers.new ≡ reduction_numbers (reduce_answer system.now words.old log.old) }
    ensures means { ReduceMeans system.now words.old log.old (reduce_answer system.now words.old log.old) words.new log.new }
{
    let answer = reduction::reduce::reduce(system, words, log);
    *numbers = answer.numbers();
}

// Ask: the verdict of a reduced system on a target and, for a member, the product over the system's freely reduced words.
#[unsafe(no_mangle)]
pub extern "C" fn subgroups_ask(
    system: &[u8],
    target: &[u8],
    product: &mut [u8],
    numbers: &mut [u64; 7],
)
    ensures product { product.new ≡ ask_product system.now target.now product.old }
    ensures numbers { numbers.new ≡ plain_numbers (ask_answer system.now target.now product.old) }
    ensures means { AskMeans system.now target.now product.old (ask_answer system.now target.now product.old) product.new }
{
    let answer = asking::ask(system, target, product);
    *numbers = answer.numbers();
}

// Member: all that reduce writes, the verdict on a target and, for a member, the product over the reduced words.
#[unsafe(no_mangle)]
pub extern "C" fn subgroups_member(
    system: &[u8],
    target: &[u8],
    words: &mut [u8],
    log: &mut [u8],
    product: &mut [u8],
    numbers: &mut [u64; 7],
)
    ensures words { words.new ≡ member_words system.now target.now words.old log.old product.old }
    ensures log { log.new ≡ member_log system.now target.now words.old log.old product.old }
    ensures product { product.new ≡ member_product system.now target.now words.old log.old product.old }
    ensures numbers { numbers.new ≡ reduction_numbers (member_answer system.now target.now words.old log.old product.old) }
    ensures means { MemberMeans system.now target.now words.old log.old product.old (member_answer system.now target.now words.old log.old product.old) words.new log.new product.new }
    ensures in_turn { NotRefused (member_answer system.now target.now words.old log.old product.old).verdict → InTurn system.now target.now words.old log.old product.old (member_answer system.now target.now words.old log.old product.old) words.new log.new product.new }
{
    let answer = membership::member(system, target, words, log, product);
    *numbers = answer.numbers();
}

// Read: the freely reduced word that a text with powers and commutators stands for, as a record.
#[unsafe(no_mangle)]
pub extern "C" fn subgroups_read_text(text: &[u8], word: &mut [u8], numbers: &mut [u64; 7])
    ensures word { word.new ≡ read_buffer text.now word.old }
    ensures numbers { numbers.new ≡ plain_numbers (read_answer text.now word.old) }
    ensures means { ReadMeans text.now word.old (read_answer text.now word.old) word.new }
{
    let answer = text::read(text, word);
    *numbers = answer.numbers();
}

// Write: the text of the word in a record, and its length.
#[unsafe(no_mangle)]
pub extern "C" fn subgroups_write_text(
    word: &[u8],
    text: &mut [u8],
    length: &mut u64,
    numbers: &mut [u64; 7],
)
    ensures text { text.new ≡ write_buffer word.now text.old }
    ensures length { length.new ≡ (write_answer word.now text.old).length }
    ensures numbers { numbers.new ≡ write_numbers (write_answer word.now text.old) }
    ensures means { WriteMeans word.now text.old (write_answer word.now text.old) text.new }
    ensures read_back { ReadBack word.now (write_answer word.now text.old) text.new }
{
    let answer = text::write(word, text);
    *length = answer.length as u64;
    let verdict = answer.verdict;
    *numbers = Answer { verdict }.numbers();
}

// To numbers: each record of a system as a record of numbers, in the same slot of the numbers buffer.
#[unsafe(no_mangle)]
pub extern "C" fn subgroups_to_numbers(system: &[u8], numbers: &mut [u8], answer: &mut [u64; 7])
    ensures numbers { numbers.new ≡ to_numbers_buffer system.now numbers.old }
    ensures answer { answer.new ≡ plain_numbers (to_numbers_answer system.now numbers.old) }
    ensures means { (to_numbers_answer system.now numbers.old).verdict ≡ Done → WentThere system.now (take (slots system.now * 128) numbers.new) }
{
    let told = numbers::to_numbers(system, numbers);
    *answer = told.numbers();
}

// From numbers: each record of numbers as a record of letters, in the same slot of the words buffer.
#[unsafe(no_mangle)]
pub extern "C" fn subgroups_from_numbers(numbers: &[u8], words: &mut [u8], answer: &mut [u64; 7])
    ensures words { words.new ≡ from_numbers_buffer numbers.now words.old }
    ensures answer { answer.new ≡ plain_numbers (from_numbers_answer numbers.now words.old) }
    ensures means { (from_numbers_answer numbers.now words.old).verdict ≡ Done → CameBack numbers.now (take (numbers_slots numbers.now * 64) words.new) }
{
    let told = numbers::from_numbers(numbers, words);
    *answer = told.numbers();
}

// Tidy numbers: each record of numbers, freely reduced, in the same slot of the tidied buffer.
#[unsafe(no_mangle)]
pub extern "C" fn subgroups_tidy_numbers(numbers: &[u8], tidied: &mut [u8], answer: &mut [u64; 7])
    ensures tidied { tidied.new ≡ tidy_numbers_buffer numbers.now tidied.old }
    ensures answer { answer.new ≡ plain_numbers (tidy_numbers_answer numbers.now tidied.old) }
    ensures means { (tidy_numbers_answer numbers.now tidied.old).verdict ≡ Done → TidiedNumbers numbers.now (take (numbers_slots numbers.now * 128) tidied.new) }
{
    let told = numbers::tidy_numbers(numbers, tidied);
    *answer = told.numbers();
}

// Trace: the verdict on a target by the folded graph of a system, whose loops are laid in the table of edges.
#[unsafe(no_mangle)]
pub extern "C" fn subgroups_trace(
    system: &[u8],
    target: &[u8],
    table: &mut [Edge],
    answer: &mut [u64; 7],
)
    ensures answer { answer.new ≡ plain_numbers (trace_answer system.now target.now (length table.old)) }
    ensures table { KeptWhenRefused (trace_answer system.now target.now (length table.old)) table.old table.new }
    ensures means { TraceMeans system.now target.now (length table.old) (trace_answer system.now target.now (length table.old)) }
    ensures agrees { AgreesWithMember system.now target.now (length table.old) (trace_answer system.now target.now (length table.old)) }
{
    let told = tracing::trace(system, target, table);
    *answer = told.numbers();
}
