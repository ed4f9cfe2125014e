//! The program `calvin`: makes standard input, standard output and an open gate, and ends with the status of the top call.
#![tactic(auto)]

use cv_io::{OpenGate, StdSink, StdSource, write_all};
use cv_top::calvin;
use std::alloc::AllocError;
use std::io::ErrorKind;
use std::process::ExitCode;

/// The status of want of memory.
const MEMORY: u8 = 6;

fn main(rt: HostRuntime) -> ExitCode {
    let alloc = rt.alloc();
    let mut source = StdSource::new(rt.reader());
    let mut sink = StdSink::new(std::io::writer(&rt));
    let words = match std::env::args(&rt) {
        Ok(args) => args.skip(1).collect::<Vec<String>>(alloc),
        Err(error) => if error.kind() == ErrorKind::OutOfMemory {
            Err(AllocError)
        } else {
            // A word that is no text is of no form, and so are no words.
            Ok(Vec::new(alloc))
        },
    };
    let Ok(words) = words else {
        let _ = write_all(&mut sink, b"memory\n");
        return ExitCode::from(MEMORY);
    };
    let outcome = calvin(
        &rt,
        alloc,
        words.as_slice(),
        &mut source,
        &mut sink,
        &OpenGate,
    );
    ExitCode::from(outcome.status)
}
