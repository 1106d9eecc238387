use super::*;
use nuc_base::Name;
use std::test::Fail;

#[test]
fn outcomes_and_places(rt: HostRuntime) -> Result<(), Fail> {
    for outcome in [Outcome::Ok, Outcome::Made(Key(3))] {
        assert!(rt; outcome.is_success());
    }
    for outcome in [
        Outcome::Changed,
        Outcome::Taken,
        Outcome::NotEmpty,
        Outcome::Failed,
        Outcome::Memory,
    ] {
        assert!(rt; !outcome.is_success());
    }
    let parent = Key(3);
    let name = Name::new(rt.alloc(), b"a")?;
    let place = KeyPlace { parent, name }.copy(rt.alloc())?;
    assert_eq!(rt; place.parent, parent);
    assert_eq!(rt; place.name.bytes(), b"a".as_slice());
    Ok(())
}
