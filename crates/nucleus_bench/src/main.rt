//! The program `nucleus_bench`: commands that each do one kind of work, for scripts that measure it. It prints what the
//! work came to, and no time.
#![tactic(auto)]

mod committing;
mod editing;
mod fault;
mod hashing;
mod journaling;
mod known;
mod layout;
mod listing;
mod observing;
mod pages;
mod placing;
mod planning;
mod storing;
#[cfg(test)]
mod tests;
mod trees;
mod work;

use fault::Fault;
use std::alloc::{AllocError, Global};
use std::process::ExitCode;
use std::rt::Env;
use std::thread::Threads;
use work::{Work, count_of};

fn main(rt: HostRuntime) -> ExitCode {
    let printed = match answer(&rt, rt.alloc()) {
        Ok(text) => println!(rt; "{text}"),
        Err(fault) => {
            let _ = eprintln!(rt; "nucleus_bench: {fault}");
            return ExitCode::FAILURE;
        }
    };
    match printed {
        Ok(()) => ExitCode::SUCCESS,
        Err(_) => ExitCode::FAILURE,
    }
}

/// What the words behind the program's name ask for.
fn answer(rt: &(impl Env + AllocGlobal + Threads + Sync), alloc: Global) -> Result<String, Fault> {
    let mut words = Vec::new(alloc);
    for word in std::env::args(rt)?.skip(1) {
        words.push(word)?;
    }
    run(rt, alloc, &words)
}

fn run(rt: &(impl Threads + Sync), alloc: Global, words: &[String]) -> Result<String, Fault> {
    match words {
        [] => small(rt, alloc),
        [work, count] => count_by(alloc, work.as_str(), count.as_str()),
        [command, files, size] if command.as_str() == "many" => {
            hashing::many(rt, alloc, number(files.as_str())?, number(size.as_str())?)
        }
        [command, count, kind] if command.as_str() == "listing" => {
            observing::observations(alloc, count_of(count.as_str())?, kind.as_str())
        }
        [command, size, piece] => hash_by(
            alloc,
            command.as_str(),
            number(size.as_str())?,
            number(piece.as_str())?,
        ),
        [command, first, second, third] => {
            ask_by(
                alloc,
                command.as_str(),
                first.as_str(),
                second.as_str(),
                third.as_str(),
            )
        }
        _ => Err(Fault::Usage),
    }
}

fn count_by(alloc: Global, work: &str, count: &str) -> Result<String, Fault> {
    match Work::named(work) {
        Some(work) => work.run(alloc, count_of(count)?),
        None => Err(Fault::Usage),
    }
}

fn hash_by(alloc: Global, command: &str, size: u64, piece: u64) -> Result<String, Fault> {
    if piece == 0 {
        return Err(Fault::Usage);
    }
    match command {
        "hash" => hashing::hash(alloc, size, piece as usize),
        "sha2" => hashing::sha2(alloc, size, piece as usize),
        _ => Err(Fault::Usage),
    }
}

/// The commands with three words behind them.
fn ask_by(
    alloc: Global,
    command: &str,
    first: &str,
    second: &str,
    third: &str,
) -> Result<String, Fault> {
    match command {
        "plan" => planning::plans(alloc, count_of(first)?, number(second)?, number(third)?),
        "ask" => trees::ask_each(alloc, first, second, count_of(third)?),
        _ => Err(Fault::Usage),
    }
}

fn number(word: &str) -> Result<u64, Fault> {
    word.parse().map_err(|_| Fault::Usage)
}

/// A little of each kind of work, to see that all of it runs.
fn small(rt: &(impl Threads + Sync), alloc: Global) -> Result<String, Fault> {
    let mut text = small_hashes(rt, alloc)?;
    text.push_str(planning::plans(alloc, 70, 3, 2)?.as_str())?;
    add_asks(alloc, &mut text)?;
    add_listings(alloc, &mut text)?;
    add_works(alloc, &mut text)?;
    Ok(text)
}

fn small_hashes(rt: &(impl Threads + Sync), alloc: Global) -> Result<String, Fault> {
    let hash = hashing::hash(alloc, 1_000, 300)?;
    let sha2 = hashing::sha2(alloc, 1_000, 300)?;
    let many = hashing::many(rt, alloc, 3, 1_000)?;
    Ok(format!(in alloc; "hash {hash}\nsha2 {sha2}\nmany {many}\n")?)
}

fn add_asks(alloc: Global, text: &mut String) -> Result<(), Fault> {
    for word in ["put", "at", "child", "under", "cut", "shuffle"] {
        let line = trees::ask_each(alloc, "index", word, 70)?;
        add_line(text, line.as_str())?;
    }
    Ok(())
}

fn add_listings(alloc: Global, text: &mut String) -> Result<(), Fault> {
    for kind in ["none", "same", "changed"] {
        let line = observing::observations(alloc, 70, kind)?;
        add_line(text, line.as_str())?;
    }
    Ok(())
}

fn add_works(alloc: Global, text: &mut String) -> Result<(), Fault> {
    for work in Work::ALL {
        let line = work.run(alloc, 70)?;
        add_line(text, line.as_str())?;
    }
    Ok(())
}

fn add_line(text: &mut String, line: &str) -> Result<(), AllocError> {
    text.push_str("\n")?;
    text.push_str(line)
}
