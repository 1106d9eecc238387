use crate::{Status, refusal, status_line};
use nuc_script::LineFault;
use std::test::Fail;

#[test]
fn a_run_that_does_not_begin_prints_why(rt: HostRuntime) -> Result<(), Fail> {
    let alloc = rt.alloc();
    let kind = LineFault::Late;
    let fault = Status::ScriptFault { line: 2, kind };
    assert_eq!(rt; refusal(alloc, &fault)?.as_str(), "status 2 2 late\n");
    let usage = refusal(alloc, &Status::Usage)?;
    assert!(rt; usage.as_str().starts_with("usage: nucleus run < SCRIPT\n"));
    assert!(rt; usage.as_str().ends_with("\nstatus 1\n"));
    Ok(())
}

#[test]
fn a_status_has_its_number(rt: HostRuntime) -> Result<(), Fail> {
    let alloc = rt.alloc();
    for (status, want) in [
        (Status::Ok, "status 0\n"),
        (Status::Stalled, "status 6\n"),
        (Status::FolderFault, "status 10\n"),
    ] {
        assert_eq!(rt; status_line(alloc, &status)?.as_str(), want);
    }
    Ok(())
}
