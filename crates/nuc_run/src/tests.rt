use crate::run_script;
use nuc_io::{MemSink, MemSource};
use nuc_report::{Ended, Status};
use nuc_script::LineFault;
use std::alloc::{AllocError, Global};
use std::rc::RcStr;
use std::test::Fail;

const EMPTY: &str = "open 1 fresh
report
server 0
client 1 0 0
remote
local
synced
folder
summary 1 0 0 0 0
status 0
";

const WRITE_AND_SYNC: &str = "open 1 fresh
user 1 write /a.txt =hello ok
list 1 0 1
item 1 0 file 5 9595c9df90075148eb06860365df33584b75bff782a510c6cd4883a419833d50 a.txt
scan 1 changed 1
pull 1 0 0
plan 1 batch 1
op 1 up 1 0
start 1 1 ok
take 1 1 accepted 1
done 1 1 applied
plan 1 empty
sync 1 quiet
report
server 1
node 1 0 file 1 a.txt
client 1 1 1
remote
node 1 0 file 1 a.txt
local
node 1 0 file 1 a.txt
synced
node 1 0 file 1 a.txt
folder
item 1 0 file 5 9595c9df90075148eb06860365df33584b75bff782a510c6cd4883a419833d50 a.txt
edit 1 1 0 put 5 9595c9df90075148eb06860365df33584b75bff782a510c6cd4883a419833d50
summary 11 1 0 0 0
status 0
";

const STALLED: &str = "open 1 fresh
web write /f =x accepted 1
list 1 0 0
scan 1 changed 0
pull 1 1 1
pull 1 0 1
plan 1 batch 1
op 1 down 1 0
start 1 1 ok
take 1 1 failed 0
done 1 1 dropped failed
sync 1 stalled 1
report
server 1
node 1 0 file 1 f
client 1 1 0
remote
node 1 0 file 1 f
local
synced
folder
edit 1 1 0 put 1 0a325ca303eb3014c43ae004970f343634db176fa1697bcc8c9efac94626488d
summary 11 1 0 0 0
status 6
";

/// What is written of a script, and how it ends.
fn run_text(alloc: Global, script: &str, output: &mut MemSink) -> Result<Ended, AllocError> {
    let words = [RcStr::from_str(alloc, "run")?];
    let mut input = MemSource::new(alloc, script.as_bytes().to_vec(alloc)?);
    Ok(run_script(alloc, &words, &mut input, output))
}

#[test]
fn an_empty_script_prints_the_empty_world(rt: HostRuntime) -> Result<(), Fail> {
    let alloc = rt.alloc();
    let mut output = MemSink::new(alloc);
    let ended = run_text(alloc, "", &mut output)?;
    assert!(rt; ended.status == Status::Ok && output.bytes() == EMPTY.as_bytes());
    Ok(())
}

#[test]
fn a_file_is_written_and_synced(rt: HostRuntime) -> Result<(), Fail> {
    let alloc = rt.alloc();
    let mut output = MemSink::new(alloc);
    let ended = run_text(alloc, "write 1 /a.txt =hello\nsync 1\n", &mut output)?;
    assert!(rt; ended.status == Status::Ok && output.bytes() == WRITE_AND_SYNC.as_bytes());
    Ok(())
}

#[test]
fn a_sync_whose_download_failed_stalls(rt: HostRuntime) -> Result<(), Fail> {
    let alloc = rt.alloc();
    let mut output = MemSink::new(alloc);
    let ended = run_text(alloc, "web write /f =x\nfail 1 2\nsync 1\n", &mut output)?;
    assert!(rt; ended.status == Status::Stalled && output.bytes() == STALLED.as_bytes());
    Ok(())
}

#[test]
fn a_listing_that_fails_ends_the_run(rt: HostRuntime) -> Result<(), Fail> {
    let alloc = rt.alloc();
    let mut output = MemSink::new(alloc);
    let ended = run_text(alloc, "fail 1 1\nlist 1\nweb mkdir /d\n", &mut output)?;
    assert!(rt; ended.before == Status::FolderFault && ended.status == Status::FolderFault);
    assert!(rt; ended.log.entries().len() == 1);
    Ok(())
}

#[test]
fn a_faulty_line_is_told(rt: HostRuntime) -> Result<(), Fail> {
    let alloc = rt.alloc();
    let mut output = MemSink::new(alloc);
    let ended = run_text(alloc, "web mkdir /d\n\nmkdr 1 /d\n", &mut output)?;
    let kind = LineFault::Word;
    assert!(rt;
        ended.before == Status::ScriptFault { line: 3, kind } && ended.log.entries().is_empty()
    );
    assert!(rt; output.bytes() == b"status 2 3 word\n".as_slice());
    Ok(())
}

#[test]
fn another_word_is_told_the_usage(rt: HostRuntime) -> Result<(), Fail> {
    let alloc = rt.alloc();
    let words = [RcStr::from_str(alloc, "Run")?];
    let mut input = MemSource::new(alloc, b"sync 1\n".to_vec(alloc)?);
    let mut output = MemSink::new(alloc);
    let ended = run_script(alloc, &words, &mut input, &mut output);
    assert!(rt; ended.before == Status::Usage && ended.status == Status::Usage);
    assert!(rt; output.bytes().ends_with(b"\nstatus 1\n".as_slice()));
    Ok(())
}

#[test]
fn a_source_that_fails_is_told(rt: HostRuntime) -> Result<(), Fail> {
    let alloc = rt.alloc();
    let words = [RcStr::from_str(alloc, "run")?];
    let mut input = MemSource::new(alloc, b"write 1 /a =1\n".to_vec(alloc)?);
    input.fail_at(1)?;
    let mut output = MemSink::new(alloc);
    let ended = run_script(alloc, &words, &mut input, &mut output);
    assert!(rt; ended.before == Status::ReadFault && ended.status == Status::ReadFault);
    assert!(rt; output.bytes() == b"status 3\n".as_slice());
    Ok(())
}

#[test]
fn a_sink_that_fails_is_told(rt: HostRuntime) -> Result<(), Fail> {
    let alloc = rt.alloc();
    let mut output = MemSink::new(alloc);
    output.fail_at(1)?;
    let ended = run_text(alloc, "write 1 /a =1\n", &mut output)?;
    assert!(rt; ended.before == Status::Ok && ended.status == Status::WriteFault);
    assert!(rt; output.bytes().is_empty() && ended.log.entries().len() == 2);
    Ok(())
}
