use crate::fault::Fault;
use crate::work::{Work, count_of};
use std::test::Fail;

#[test]
fn counts_within_bounds(rt: HostRuntime) -> Result<(), Fail> {
    assert_eq!(rt; count_of("1")?, 1);
    assert_eq!(rt; count_of("4000000")?, 4_000_000);
    for word in ["", "0", "4000001", "-1", "one", "18446744073709551616"] {
        assert!(rt; matches!(count_of(word), Err(Fault::Count)));
    }
    Ok(())
}

#[test]
fn knows_its_works(rt: HostRuntime) -> Result<(), Fail> {
    assert_eq!(rt; Work::named("tree"), Some(Work::Tree));
    assert_eq!(rt; Work::named("hash"), None);
    Ok(())
}
