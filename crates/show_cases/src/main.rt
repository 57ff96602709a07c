// Runs show, which has no entry for C, on the cases of the separate Rust version's file show-cases.txt, and prints the parts that it hands back.
#![tactic(auto)]

use records::record::{RECORD, STOP};
use show::show;
use std::io;
use std::iter::repeat;

// The bytes of 18 records, more than any system here has.
const ROOM: usize = 1152;

// The texts that begin a system's records, with a space between them, and how many bytes the system has.
struct System(&'static str, usize);

// A reduced system, a given one, and the byte of the slot that is shown.
struct Case(System, System, u8);

// In the order of the file.
const CASES: [Case; 30] = [
    // Slots of two words, blank ones among them, and a slot that the systems have not.
    Case(System("a b", 128), System("ab b", 128), b'a'),
    Case(System("a b", 128), System("ab b", 128), b'b'),
    Case(System(". a", 128), System("aa aaa", 128), b'a'),
    Case(System(". a", 128), System("aa aaa", 128), b'b'),
    Case(System(". b", 128), System(". b", 128), b'a'),
    Case(System("a b", 128), System("ab b", 128), b'c'),
    // Slots beyond the systems, and bytes that are no letter of a slot.
    Case(System("a b", 128), System("ab b", 128), b'p'),
    Case(System("a b", 128), System("ab b", 128), b'A'),
    Case(System("a b", 128), System("ab b", 128), b'q'),
    Case(System("a b", 128), System("ab b", 128), 0x00),
    Case(System("a b", 128), System("ab b", 128), 0x60),
    Case(System("a b", 128), System("ab b", 128), 0xff),
    // Systems of different lengths, and lengths that are no multiple of 64.
    Case(System("a b", 128), System("ab", 64), b'a'),
    Case(System("a b", 128), System("ab b", 127), b'a'),
    Case(System("a b", 127), System("ab b", 127), b'a'),
    Case(System("a b", 133), System("ab b", 133), b'a'),
    Case(System("", 0), System("", 0), b'a'),
    Case(System("", 0), System("ab", 64), b'a'),
    Case(System("", 63), System("", 63), b'a'),
    // Systems of 16 and of 17 records.
    Case(SIXTEEN, SIXTEEN_CAPITALS, b'a'),
    Case(SIXTEEN, SIXTEEN_CAPITALS, b'm'),
    Case(SIXTEEN, SIXTEEN_CAPITALS, b'p'),
    Case(LAST_BLANK, SIXTEEN_CAPITALS, b'p'),
    Case(SEVENTEEN, SEVENTEEN_CAPITALS, b'p'),
    Case(SEVENTEEN, SEVENTEEN_CAPITALS, b'q'),
    // Records whose first byte alone is looked at, and a full record.
    Case(System(".bc a", 128), System("ab b", 128), b'a'),
    Case(System("a.c a", 128), System("ab b", 128), b'a'),
    Case(System("7?x a", 128), System("ab b", 128), b'a'),
    Case(System(". a", 128), System(".?!7 b", 128), b'a'),
    Case(FULL, System("a", 64), b'a'),
];

const SIXTEEN: System = System("a b c d e f g h i j k l m n o p", 1024);

const LAST_BLANK: System = System("a b c d e f g h i j k l m n o .", 1024);

const SIXTEEN_CAPITALS: System = System("A B C D E F G H I J K L M N O P", 1024);

const SEVENTEEN: System = System("a b c d e f g h i j k l m n o p q", 1088);

const SEVENTEEN_CAPITALS: System = System("A B C D E F G H I J K L M N O P Q", 1088);

const FULL: System = System(
    "abcdefghijklmnopqrstuvwxyzabcdefghijklmnopqrstuvwxyzabcdefghijk",
    64,
);

fn main(rt: HostRuntime) -> io::Result<()> {
    for case in &CASES {
        show_case(&rt, case)?;
    }
    Ok(())
}

// Shows the slot of a case, and prints the part, or a line that says that it is empty.
fn show_case(rt: &impl Print, case: &Case) -> io::Result<()> {
    let Case(System(reduced, reduced_length), System(given, given_length), slot) = *case;
    let mut first = [0u8; ROOM];
    let mut second = [0u8; ROOM];
    fill_records(reduced, &mut first);
    fill_records(given, &mut second);
    let part = show(
        &first[..reduced_length.min(ROOM)],
        &second[..given_length.min(ROOM)],
        slot,
    );
    if part.is_empty() {
        rt.write_all(b"empty\n")
    } else {
        rt.write_all(part)
    }
}

// Fills records with texts that have a space between them; the others are blank.
fn fill_records(texts: &str, records: &mut [u8]) {
    let texts = texts.split(' ').chain(repeat(""));
    for (record, text) in records.chunks_exact_mut(RECORD).zip(texts) {
        fill_record(text, record);
    }
}

// Fills one record with its text, full stops and a line feed.
fn fill_record(text: &str, record: &mut [u8]) {
    record.fill(STOP);
    for (place, byte) in record.iter_mut().zip(text.bytes()) {
        *place = byte;
    }
    if let Some(last) = record.last_mut() {
        *last = b'\n';
    }
}
