use crate::Name;
use std::cmp::Ordering;
use std::test::Fail;

/// A name, where its extension begins, and how many bytes of what stands before it are left in the candidates 1, 2, 9 and 10,
/// as another program cuts them.
type Case = (&'static str, usize, [usize; 4]);

#[test]
fn copies_have_names_of_their_own(rt: HostRuntime) -> Result<(), Fail> {
    for (text, tail, [first, second, ninth, tenth]) in cases() {
        let text = text.as_bytes();
        let name = Name::new(rt.alloc(), text)?;
        let copy = name.conflicted_copy(rt.alloc(), 1)?;
        assert!(rt; is_made_of(&copy, text, first, b" (conflicted copy)", tail));
        let copy = name.conflicted_copy(rt.alloc(), 2)?;
        assert!(rt; is_made_of(&copy, text, second, b" (conflicted copy 2)", tail));
        let copy = name.conflicted_copy(rt.alloc(), 9)?;
        assert!(rt; is_made_of(&copy, text, ninth, b" (conflicted copy 9)", tail));
        let copy = name.conflicted_copy(rt.alloc(), 10)?;
        assert!(rt; is_made_of(&copy, text, tenth, b" (conflicted copy 10)", tail));
    }
    Ok(())
}

#[test]
fn names_are_in_the_order_of_their_bytes(rt: HostRuntime) -> Result<(), Fail> {
    let name = Name::new(rt.alloc(), b"a.txt")?;
    for (other, want) in [
        (b"a".as_slice(), Ordering::Greater),
        (b"a.txt".as_slice(), Ordering::Equal),
        (b"\xc3\xa9".as_slice(), Ordering::Less),
    ] {
        let other = Name::new(rt.alloc(), other)?;
        assert_eq!(rt; name.order(&other), want);
    }
    Ok(())
}

fn is_made_of(copy: &Name, text: &[u8], left: usize, label: &[u8], tail: usize) -> bool {
    let stem = text.iter().take(left);
    let rest = text.iter().skip(tail);
    copy.bytes().iter().eq(stem.chain(label).chain(rest))
}

fn cases() -> [Case; 63] {
    [
        ("a.txt", 1, [1, 1, 1, 1]),
        (".bashrc", 7, [7, 7, 7, 7]),
        ("a.", 2, [2, 2, 2, 2]),
        ("a", 1, [1, 1, 1, 1]),
        ("archive.tar.gz", 11, [11, 11, 11, 11]),
        ("x.y.", 4, [4, 4, 4, 4]),
        ("..a", 1, [1, 1, 1, 1]),
        (".a.b", 2, [2, 2, 2, 2]),
        ("a.eeeeeeeeeeeeeeee", 1, [1, 1, 1, 1]),
        ("a.eeeeeeeeeeeeeeeee", 19, [19, 19, 19, 19]),
        ("a.éééééééé", 1, [1, 1, 1, 1]),
        ("a.ééééééééé", 20, [20, 20, 20, 20]),
        ("no extension at all", 19, [19, 19, 19, 19]),
        ("x..y", 2, [2, 2, 2, 2]),
        ("é.txt", 2, [2, 2, 2, 2]),
        ("a (conflicted copy).txt", 19, [19, 19, 19, 19]),
        ("a (conflicted copy 2)", 21, [21, 21, 21, 21]),
        ("1.2.3.4", 5, [5, 5, 5, 5]),
        (
            "aaaaaaaaaaaaaaaaaaaaaaaaaaaaaaaaaaaaaaaaaaaaaaaaaaaaaaaaaaaaaaaaaaaaaaaaaaaaaaaaaaaaaaaaaaaaaaaaaaaaaaaaaaaaaaaaaaaaaaaaaaaaaaaaaaaaaaaaaaaaaaaaaaaaaaaaaaaaaaaaaaaaaaaaaaaaaaaaaaaaaaaaaaaaaaaaaaaaaaaaaaaaaaaaaaaaaaaaaaaaaaaaaaaaaaaaaaaa",
            236,
            [236, 235, 235, 234],
        ),
        (
            "aaéaééééaaéaééééaaéaéééaééééééééaaééééaaéaaééaéaaéaéaaaaaéaaééaéaaéaaaéaéééééaaaaaéaaéaééaaéaaéaaaéééaaéééaééaaaaéééaaéééaééaaééaaéaéaaaaaaaaééaéaaééaaaéaéaaaaa",
            236,
            [236, 235, 235, 234],
        ),
        (
            "bb𝄞𝄞bbbbbbbbbbbb𝄞bbb𝄞𝄞𝄞bbb𝄞b𝄞bbb𝄞𝄞𝄞b𝄞𝄞𝄞𝄞b𝄞𝄞𝄞𝄞𝄞b𝄞b𝄞𝄞bbbb𝄞𝄞𝄞b𝄞bbbb𝄞b𝄞b𝄞bbbb𝄞bbbb𝄞𝄞bb𝄞𝄞𝄞b𝄞b𝄞b𝄞bbbb𝄞bbbbb𝄞bbbbb.txt",
            230,
            [230, 230, 230, 230],
        ),
        (
            "....漢.漢漢.漢.漢漢.漢..漢.漢漢..漢....漢漢漢....漢...漢漢漢..漢漢漢......漢..漢.漢....漢漢...漢.漢漢漢.漢漢漢..漢..漢漢漢漢漢漢..漢漢漢.漢漢漢漢漢.漢.漢漢.漢漢.漢...zzzzzzzzzzzzzzzz",
            219,
            [219, 218, 218, 217],
        ),
        (
            "aaaaaaaaaaaaaaaaaaaaaaaaaaaaaaaaaaaaaaaaaaaaaaaaaaaaaaaaaaaaaaaaaaaaaaaaaaaaaaaaaaaaaaaaaaaaaaaaaaaaaaaaaaaaaaaaaaaaaaaaaaaaaaaaaaaaaaaaaaaaaaaaaaaaaaaaaaaaaaaaaaaaaaaaaaaaaaaaaaaaaaaaaaaaaaaaaaaaaaaaaaaaaaaaaaaaaaaaaaaaaaaaaaaaaaaaaaaaa",
            237,
            [237, 235, 235, 234],
        ),
        (
            "aaaééaéaéaééaaééaaaéééaééééaéaaaaééaééaéééaééaaéaaaaaéaaaaéééaééééééééaaaéaaaaaaaéééééaaaéaéaéaééaéaaaééaaééaaaéééééééaaaéaaaéaéééééaaéaéaaéééaéééaéaéééaaé",
            236,
            [236, 234, 234, 234],
        ),
        (
            "bbbb𝄞𝄞𝄞𝄞b𝄞𝄞𝄞b𝄞𝄞𝄞𝄞𝄞𝄞bbbbb𝄞𝄞bb𝄞𝄞𝄞bb𝄞bbb𝄞𝄞𝄞b𝄞𝄞b𝄞b𝄞b𝄞𝄞𝄞bb𝄞𝄞bbb𝄞b𝄞𝄞b𝄞𝄞𝄞bb𝄞b𝄞b𝄞b𝄞𝄞bbbb𝄞𝄞𝄞𝄞𝄞𝄞.txt",
            230,
            [230, 230, 230, 230],
        ),
        (
            "...漢漢.漢.漢..漢漢漢漢.漢漢...漢...漢..漢.漢漢..漢漢漢.漢漢漢漢漢....漢漢.漢..漢..漢漢...漢漢漢..漢漢漢.漢.漢...漢漢.漢漢漢.漢.漢.....漢漢..漢漢..漢漢漢...漢.漢漢漢.zzzzzzzzzzzzzzzz",
            220,
            [220, 217, 217, 217],
        ),
        (
            "aaaaaaaaaaaaaaaaaaaaaaaaaaaaaaaaaaaaaaaaaaaaaaaaaaaaaaaaaaaaaaaaaaaaaaaaaaaaaaaaaaaaaaaaaaaaaaaaaaaaaaaaaaaaaaaaaaaaaaaaaaaaaaaaaaaaaaaaaaaaaaaaaaaaaaaaaaaaaaaaaaaaaaaaaaaaaaaaaaaaaaaaaaaaaaaaaaaaaaaaaaaaaaaaaaaaaaaaaaaaaaaaaaaaaaaaaaaaaa",
            238,
            [237, 235, 235, 234],
        ),
        (
            "éaaéaéééaaaéaaééaaaéaéééaaaéééaéééaaéaaéaaaéaéaéééaéaéaéaééaééaéaaéaééééééaéaéaaééaééééaaéaééaaaééaééaaaéaaééaaéaaéaaééaaaéaééaéaééaéaaéaééaaééééaééaaaééééa",
            238,
            [237, 235, 235, 233],
        ),
        (
            "𝄞b𝄞bb𝄞𝄞𝄞bb𝄞𝄞𝄞bbbb𝄞𝄞b𝄞b𝄞b𝄞b𝄞bb𝄞b𝄞bbb𝄞𝄞𝄞b𝄞𝄞b𝄞b𝄞𝄞𝄞bbb𝄞b𝄞𝄞b𝄞𝄞𝄞b𝄞b𝄞bb𝄞𝄞b𝄞b𝄞𝄞bbbbbb𝄞𝄞b𝄞𝄞b𝄞𝄞b𝄞𝄞𝄞𝄞.txt",
            234,
            [230, 230, 230, 230],
        ),
        (
            ".漢漢.漢漢漢..漢...漢漢.....漢漢.漢漢.漢...漢..漢.漢漢.漢漢漢漢.漢.....漢漢..漢..漢漢..漢漢漢.漢漢.漢.漢漢.漢..漢漢漢漢漢漢..漢.漢......漢....漢漢..漢.漢漢.漢...漢漢漢.zzzzzzzzzzzzzzzz",
            221,
            [218, 218, 218, 215],
        ),
        (
            "aaaaaaaaaaaaaaaaaaaaaaaaaaaaaaaaaaaaaaaaaaaaaaaaaaaaaaaaaaaaaaaaaaaaaaaaaaaaaaaaaaaaaaaaaaaaaaaaaaaaaaaaaaaaaaaaaaaaaaaaaaaaaaaaaaaaaaaaaaaaaaaaaaaaaaaaaaaaaaaaaaaaaaaaaaaaaaaaaaaaaaaaaaaaaaaaaaaaaaaaaaaaaaaaaaaaaaaaaaaaaaaaaaaaaaaaaaaaaaa",
            239,
            [237, 235, 235, 234],
        ),
        (
            "aéaaééaaaéééaaaaééaaaaaéééaééaééaéaaéaaéaéaaaaééaééééaéaaééaéaéaaéaaééééééaaéaaaaéééaééaééaéaaaaaéaaaaéééaéaéééééaaaéaéaaaééééaaaaaéaéaaaaéaéééaéaaaaaaaééaéaaaéééa",
            238,
            [237, 235, 235, 233],
        ),
        (
            "𝄞𝄞𝄞𝄞b𝄞bb𝄞b𝄞𝄞𝄞𝄞bbb𝄞𝄞bb𝄞b𝄞𝄞b𝄞b𝄞𝄞𝄞𝄞𝄞bbbbb𝄞𝄞b𝄞𝄞b𝄞𝄞b𝄞𝄞b𝄞𝄞𝄞b𝄞𝄞b𝄞b𝄞bb𝄞𝄞b𝄞𝄞𝄞bb𝄞b𝄞bb𝄞b𝄞𝄞bbb𝄞𝄞bb𝄞.txt",
            234,
            [230, 230, 230, 230],
        ),
        (
            "漢.漢..漢.漢漢漢.漢漢..漢.漢.漢漢......漢...漢漢..漢漢.漢漢.漢漢..漢..漢.漢漢漢漢..漢..漢...漢漢.漢.漢...漢漢..漢.漢.漢..漢..漢.漢漢.....漢..漢..漢漢漢..漢...漢漢漢.漢..zzzzzzzzzzzzzzzz",
            220,
            [220, 216, 216, 216],
        ),
        (
            "aaaaaaaaaaaaaaaaaaaaaaaaaaaaaaaaaaaaaaaaaaaaaaaaaaaaaaaaaaaaaaaaaaaaaaaaaaaaaaaaaaaaaaaaaaaaaaaaaaaaaaaaaaaaaaaaaaaaaaaaaaaaaaaaaaaaaaaaaaaaaaaaaaaaaaaaaaaaaaaaaaaaaaaaaaaaaaaaaaaaaaaaaaaaaaaaaaaaaaaaaaaaaaaaaaaaaaaaaaaaaaaaaaaaaaaaaaaaaaaa",
            240,
            [237, 235, 235, 234],
        ),
        (
            "ééééaaaaééaaaéaaaaééaaaééaaaaéaaaaééaaaééaéaaaééaaéaaéééaéaééaéaaaééééaéaaéééaaéaaéééééaééééaaaaéaaéaééaéaaéééaéaaéaéaééééaaéaééaaaaaéaaéééééaééééaéaééééaéaaaé",
            239,
            [237, 235, 235, 234],
        ),
        (
            "b𝄞bb𝄞b𝄞𝄞𝄞bbbbb𝄞𝄞b𝄞𝄞𝄞b𝄞b𝄞𝄞b𝄞bbb𝄞bb𝄞𝄞𝄞𝄞bbbb𝄞bbb𝄞bb𝄞b𝄞𝄞bb𝄞bb𝄞b𝄞𝄞b𝄞bbb𝄞bbbb𝄞𝄞b𝄞𝄞𝄞𝄞bb𝄞𝄞𝄞b𝄞𝄞𝄞𝄞bb𝄞𝄞𝄞bbb.txt",
            234,
            [233, 231, 231, 227],
        ),
        (
            "漢...漢.漢.漢漢漢...漢漢.漢..漢...漢..漢.漢漢漢..漢.漢.漢..漢.漢漢漢漢..漢漢..漢漢...漢漢..漢漢漢...漢漢...漢..漢....漢.漢漢.漢漢漢.漢..漢漢漢漢漢..漢..漢...漢漢...漢.漢.zzzzzzzzzzzzzzzz",
            223,
            [220, 216, 216, 216],
        ),
        (
            "aaaaaaaaaaaaaaaaaaaaaaaaaaaaaaaaaaaaaaaaaaaaaaaaaaaaaaaaaaaaaaaaaaaaaaaaaaaaaaaaaaaaaaaaaaaaaaaaaaaaaaaaaaaaaaaaaaaaaaaaaaaaaaaaaaaaaaaaaaaaaaaaaaaaaaaaaaaaaaaaaaaaaaaaaaaaaaaaaaaaaaaaaaaaaaaaaaaaaaaaaaaaaaaaaaaaaaaaaaaaaaaaaaaaaaaaaaaaaaaaaaaaaaaaaa",
            250,
            [237, 235, 235, 234],
        ),
        (
            "aaéaééééaééaééaééaaéaéaaéaaéaaaééaaaéaaaééaaaaaaéééaéééaaéaéaéaééaaéaéaaaaaaéééaaééaaaéaéaaéaéaaaéééaééaaééaaéééaaéaééaaaaaaaaéaaaéaééééaéaéaaéaaaaéééaééaaéééaééaééaéaééé",
            250,
            [236, 235, 235, 233],
        ),
        (
            "𝄞bbb𝄞𝄞𝄞bbb𝄞𝄞bb𝄞𝄞b𝄞b𝄞bbbbb𝄞bbbb𝄞𝄞𝄞𝄞b𝄞bbb𝄞bbb𝄞𝄞𝄞𝄞𝄞𝄞𝄞𝄞bbbb𝄞b𝄞𝄞𝄞bb𝄞bb𝄞b𝄞𝄞𝄞𝄞b𝄞𝄞𝄞bbbbb𝄞b𝄞b𝄞𝄞𝄞𝄞b𝄞𝄞b𝄞𝄞b𝄞.txt",
            243,
            [230, 230, 230, 230],
        ),
        (
            "..漢漢漢漢...漢..漢漢漢漢漢漢..漢..漢漢漢漢.漢漢..漢.漢..漢..漢.漢.漢.漢漢..漢漢.漢漢漢...漢.漢.漢.漢漢..漢.漢漢...漢.漢漢..漢....漢..漢..漢漢.....漢漢.漢.漢漢漢漢漢.漢漢...漢.zzzzzzzzzzzzzzzz",
            233,
            [220, 217, 217, 217],
        ),
        (
            "aaaaaaaaaaaaaaaaaaaaaaaaaaaaaaaaaaaaaaaaaaaaaaaaaaaaaaaaaaaaaaaaaaaaaaaaaaaaaaaaaaaaaaaaaaaaaaaaaaaaaaaaaaaaaaaaaaaaaaaaaaaaaaaaaaaaaaaaaaaaaaaaaaaaaaaaaaaaaaaaaaaaaaaaaaaaaaaaaaaaaaaaaaaaaaaaaaaaaaaaaaaaaaaaaaaaaaaaaaaaaaaaaaaaaaaaaaaaaaaaaaaaaaaaaaa",
            251,
            [237, 235, 235, 234],
        ),
        (
            "aaaaaééééaééaaéaaaaéaaéaéaéaéaééaééaaéaaééaéaéaéaaaéaéééééaaaaééaéééaééaéaééaaééaaéééaéaaaééaéééééaaaééaaaéaaaaéaéééaaéaaéaéaéaaaééaaééaéaaaéaaaaaééaéaaééaaééaaéaaééaaééa",
            250,
            [237, 235, 235, 234],
        ),
        (
            "𝄞bb𝄞𝄞bb𝄞b𝄞𝄞bb𝄞bb𝄞𝄞bbb𝄞𝄞𝄞𝄞𝄞𝄞𝄞bbbbbbb𝄞b𝄞𝄞𝄞bb𝄞𝄞𝄞𝄞𝄞b𝄞bbb𝄞b𝄞𝄞b𝄞b𝄞𝄞b𝄞𝄞bb𝄞𝄞𝄞𝄞b𝄞bb𝄞𝄞𝄞bbb𝄞bbbb𝄞𝄞𝄞𝄞𝄞𝄞bb𝄞.txt",
            244,
            [230, 230, 230, 230],
        ),
        (
            "漢漢.漢..漢.漢漢漢..漢.漢漢..漢.漢漢漢漢漢.漢...漢漢..漢....漢漢...漢漢漢...漢漢漢.漢漢漢.漢漢漢漢漢....漢漢..漢漢漢..漢....漢漢.漢.漢漢..........漢.漢.漢.漢..........漢...漢漢漢..zzzzzzzzzzzzzzzz",
            234,
            [218, 218, 218, 217],
        ),
        (
            "aaaaaaaaaaaaaaaaaaaaaaaaaaaaaaaaaaaaaaaaaaaaaaaaaaaaaaaaaaaaaaaaaaaaaaaaaaaaaaaaaaaaaaaaaaaaaaaaaaaaaaaaaaaaaaaaaaaaaaaaaaaaaaaaaaaaaaaaaaaaaaaaaaaaaaaaaaaaaaaaaaaaaaaaaaaaaaaaaaaaaaaaaaaaaaaaaaaaaaaaaaaaaaaaaaaaaaaaaaaaaaaaaaaaaaaaaaaaaaaaaaaaaaaaaaaa",
            252,
            [237, 235, 235, 234],
        ),
        (
            "aaéaééééaéaaéaaééaééaaaéaééaéaaééaééaéaéaéééééaéaaéaééaéééaaéaaééaéaaééaaaaaaaéééaéééééaéaéaaéaaaaaééaaaaééaéaéaaaaéaéaéaééaaéaaéééaaaaéééaaééaééaaééaéééaééééaaééééaa",
            251,
            [237, 235, 235, 233],
        ),
        (
            "b𝄞𝄞𝄞𝄞𝄞𝄞bb𝄞b𝄞𝄞bbb𝄞bbb𝄞𝄞𝄞𝄞𝄞b𝄞𝄞b𝄞𝄞𝄞b𝄞b𝄞𝄞𝄞b𝄞bb𝄞𝄞b𝄞b𝄞𝄞𝄞b𝄞bbbbb𝄞b𝄞b𝄞𝄞b𝄞𝄞b𝄞𝄞bbb𝄞b𝄞bb𝄞𝄞b𝄞b𝄞𝄞bbbbb𝄞b𝄞𝄞𝄞.txt",
            247,
            [230, 230, 230, 230],
        ),
        (
            "漢..漢.漢.漢漢漢漢漢.漢漢.漢漢..漢漢漢漢.漢漢漢..漢.漢..漢..漢.漢漢漢漢.......漢.漢漢.漢..漢漢漢.漢.漢..漢漢漢...漢漢.漢.漢漢漢漢...漢漢..漢漢.漢......漢..漢.漢漢.漢.漢漢漢...zzzzzzzzzzzzzzzz",
            233,
            [218, 218, 218, 217],
        ),
        (
            "aaaaaaaaaaaaaaaaaaaaaaaaaaaaaaaaaaaaaaaaaaaaaaaaaaaaaaaaaaaaaaaaaaaaaaaaaaaaaaaaaaaaaaaaaaaaaaaaaaaaaaaaaaaaaaaaaaaaaaaaaaaaaaaaaaaaaaaaaaaaaaaaaaaaaaaaaaaaaaaaaaaaaaaaaaaaaaaaaaaaaaaaaaaaaaaaaaaaaaaaaaaaaaaaaaaaaaaaaaaaaaaaaaaaaaaaaaaaaaaaaaaaaaaaaaaaa",
            253,
            [237, 235, 235, 234],
        ),
        (
            "aéééaéaaaéaééaéaééaéaaééééaééééaéaéééééaaéééaaéaaaééaééaéaééaééaaéaééaaaaaaééaéaaéaaéaaaéaééaaaaaééaaaéééaaééaaéaéaéaéaéaéééaééaéaaaéééééaéaaéaééaééaéaéééaéaéaaéaéaaé",
            253,
            [237, 234, 234, 234],
        ),
        (
            "𝄞b𝄞𝄞bb𝄞b𝄞𝄞𝄞bbb𝄞b𝄞b𝄞𝄞𝄞𝄞b𝄞bb𝄞b𝄞𝄞𝄞b𝄞b𝄞𝄞𝄞𝄞b𝄞bb𝄞𝄞bb𝄞bbbb𝄞b𝄞b𝄞b𝄞𝄞𝄞bb𝄞bb𝄞bbbb𝄞𝄞b𝄞𝄞b𝄞𝄞bbb𝄞b𝄞𝄞bbb𝄞bb𝄞b𝄞bbb𝄞𝄞b.txt",
            247,
            [231, 231, 231, 230],
        ),
        (
            "漢漢.漢..漢..漢..漢.漢漢..漢漢漢.漢漢漢...漢.漢漢漢..漢漢.漢漢.漢漢漢漢漢漢..漢..漢..漢漢漢..漢.漢....漢漢..漢漢漢.漢漢漢漢漢漢漢.漢漢.漢漢..漢漢漢漢漢.漢..漢....漢漢漢漢漢.zzzzzzzzzzzzzzzz",
            235,
            [220, 218, 218, 217],
        ),
        (
            "aaaaaaaaaaaaaaaaaaaaaaaaaaaaaaaaaaaaaaaaaaaaaaaaaaaaaaaaaaaaaaaaaaaaaaaaaaaaaaaaaaaaaaaaaaaaaaaaaaaaaaaaaaaaaaaaaaaaaaaaaaaaaaaaaaaaaaaaaaaaaaaaaaaaaaaaaaaaaaaaaaaaaaaaaaaaaaaaaaaaaaaaaaaaaaaaaaaaaaaaaaaaaaaaaaaaaaaaaaaaaaaaaaaaaaaaaaaaaaaaaaaaaaaaaaaaaa",
            254,
            [237, 235, 235, 234],
        ),
        (
            "éééaaééaéaaaééaéaaaééaaéaéééééaaaéaaéééaaaééééaéééééaééééééééaaaééaééaééaaééééééaaaaaéaéaaééaéaééaéaaééééaéaaééééééééaaaéaééaéaéaéééééaaaééééééaéaaaééaééééééa",
            254,
            [236, 235, 235, 234],
        ),
        (
            "𝄞𝄞b𝄞𝄞𝄞𝄞bb𝄞bb𝄞b𝄞b𝄞bb𝄞𝄞bb𝄞bbbb𝄞𝄞bb𝄞𝄞𝄞bbb𝄞bb𝄞bb𝄞bbb𝄞b𝄞b𝄞𝄞b𝄞𝄞b𝄞𝄞b𝄞𝄞𝄞𝄞bb𝄞b𝄞𝄞𝄞𝄞𝄞bbbbbb𝄞𝄞𝄞𝄞𝄞𝄞𝄞b𝄞𝄞b𝄞b𝄞𝄞b.txt",
            249,
            [230, 230, 230, 230],
        ),
        (
            "漢.漢.....漢.漢漢漢漢...漢漢..漢.漢漢漢漢.漢漢漢漢..漢漢漢漢漢..漢漢漢.漢漢.漢.....漢漢.......漢..漢.漢..漢漢.漢...漢漢.漢...漢漢.漢....漢漢.漢漢.漢漢漢漢..漢漢漢漢.漢..漢.漢....zzzzzzzzzzzzzzzz",
            235,
            [220, 216, 216, 216],
        ),
        (
            "aaaaaaaaaaaaaaaaaaaaaaaaaaaaaaaaaaaaaaaaaaaaaaaaaaaaaaaaaaaaaaaaaaaaaaaaaaaaaaaaaaaaaaaaaaaaaaaaaaaaaaaaaaaaaaaaaaaaaaaaaaaaaaaaaaaaaaaaaaaaaaaaaaaaaaaaaaaaaaaaaaaaaaaaaaaaaaaaaaaaaaaaaaaaaaaaaaaaaaaaaaaaaaaaaaaaaaaaaaaaaaaaaaaaaaaaaaaaaaaaaaaaaaaaaaaaaaa",
            255,
            [237, 235, 235, 234],
        ),
        (
            "éaaaaééaaaaaééaaaéaaaééaaééééaaaaaaééaaééééaéaaééaaéééaaaaéaaaééaééaéaéééééaéaaéaaéééaééaéaéaéééaaéaaaéaaaééaaéaééaééaééaaaaaééééaaéaaééaaééaééaaaéééééaaéaééaaéaaaaéééaaéaé",
            255,
            [236, 235, 235, 234],
        ),
        (
            "𝄞𝄞bbbbbbbbb𝄞𝄞bb𝄞𝄞b𝄞𝄞𝄞𝄞𝄞b𝄞bb𝄞𝄞𝄞bbb𝄞b𝄞𝄞bbb𝄞bbbbbbb𝄞bb𝄞𝄞b𝄞𝄞𝄞𝄞b𝄞bb𝄞𝄞b𝄞𝄞b𝄞𝄞𝄞𝄞bb𝄞bb𝄞bbb𝄞bb𝄞b𝄞bb𝄞b𝄞𝄞bbb𝄞bbb𝄞𝄞𝄞b𝄞.txt",
            249,
            [232, 231, 231, 230],
        ),
        (
            "...漢漢.漢漢..漢漢..漢.....漢..漢漢漢漢漢.漢.漢漢.....漢.漢漢漢...漢..漢漢....漢漢..漢漢漢漢漢漢漢漢漢漢漢漢.漢...漢.漢漢.漢漢漢.漢..漢漢.漢.漢.....漢......漢漢漢漢漢漢.漢漢漢...zzzzzzzzzzzzzzzz",
            236,
            [218, 218, 218, 215],
        ),
        (
            "aaaaaaaaaaaaaaaaaaaaaaaaaaaaaaaaaaaaaaaaaaaaaaaaaaaaaaaaaaaaaaaaaaaaaaaaaaaaaaaaaaaaaaaaaaaaaaaaaaaaaaaaaaaaaaaaaaaaaaaaaaaaaaaaaaaaaaaaaaaaaaaaaaaaaaaaaaaaaaaaaaaaaaaaaaaaaaaaaaaaaaaaaaaaaaaaaaaaaaaaaaaaaaaaaaaaaaaaaaaaaaaaaaaaaaaaaaaaébbbbbbbbbbbbbbbbb",
            255,
            [236, 235, 235, 234],
        ),
    ]
}
