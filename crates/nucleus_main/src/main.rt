//! The program `nucleus`: the top call over the words and the standard streams.
#![tactic(auto)]

use nuc_io::{StdSink, StdSource};
use nuc_report::Status;
use nuc_run::run_script;
use std::alloc::{AllocError, Global};
use std::io::{self, BufReader, ErrorKind};
use std::process::ExitCode;
use std::rc::RcStr;
use std::rt::Env;

fn main(rt: HostRuntime) -> ExitCode {
    let alloc = rt.alloc();
    let Ok(words) = words(&rt, alloc) else {
        return ExitCode::from(Status::Memory.number());
    };
    let Ok(reader) = BufReader::new(alloc, rt.reader()) else {
        return ExitCode::from(Status::Memory.number());
    };
    let mut input = StdSource::new(reader);
    let mut output = StdSink::new(io::writer(&rt));
    let ended = run_script(alloc, &words, &mut input, &mut output);
    ExitCode::from(ended.status.number())
}

/// The words behind the program's name; none where one of them isn't text, since no command has such a word.
fn words(rt: &(impl Env + AllocGlobal), alloc: Global) -> Result<Vec<RcStr>, AllocError> {
    let mut words = Vec::new(alloc);
    let given = match std::env::args(rt) {
        Ok(given) => given,
        Err(error) if error.kind() == ErrorKind::OutOfMemory => return Err(AllocError),
        Err(_) => return Ok(words),
    };
    for word in given.skip(1) {
        words.push(RcStr::from_string(word)?)?;
    }
    Ok(words)
}
