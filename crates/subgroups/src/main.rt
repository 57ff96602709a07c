// Reads records from standard input, the last one the target and the earlier ones the system, and writes to standard output what the
// crate output makes of them: the reduced system, the log and, for a member, the product; or one line that says why the input is refused.
#![tactic(auto)]

mod reading;

use crate::reading::read_input;
use input::{Kept, LONGEST};
use output::print;
use printing::answers::OUTPUT;
use std::io;

fn main(rt: HostRuntime) -> io::Result<()> {
    let mut bytes = [0u8; LONGEST];
    let mut kept = Kept {
        bytes: &mut bytes,
        size: 0,
    };
    if read_input(&mut rt.stdin(), &mut kept).is_err() {
        return rt.eprintln("subgroups: standard input cannot be read");
    }
    let Kept { bytes, size } = kept;
    let mut out = [0u8; OUTPUT];
    let Ok(n) = print(bytes, size, &mut out) else {
        unreachable!()
    };
    write_output(&rt, &out[..n])
}

// Writes the output to standard output, or tells on standard error that it cannot be written.
fn write_output(rt: &(impl Print + Eprint), bytes: &[u8]) -> io::Result<()> {
    if rt.write_all(bytes).is_err() {
        return rt.eprintln("subgroups: standard output cannot be written");
    }
    Ok(())
}
