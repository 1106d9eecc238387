use crate::{Command, LineFault, ScriptRead, print_script, read_script};
use nuc_folder::UserEdit;
use nuc_hash::Filling;
use nuc_io::MemSource;
use std::alloc::{AllocError, Global};
use std::test::Fail;

/// What the reading of a text answers.
fn read_text(alloc: Global, text: &[u8]) -> Result<ScriptRead, AllocError> {
    let mut source = MemSource::new(alloc, text.to_vec(alloc)?);
    Ok(read_script(alloc, &mut source))
}

/// Whether the line of this number has this fault, and no line before it has one.
fn is_faulty(
    alloc: Global,
    text: &[u8],
    number: u64,
    wanted: LineFault,
) -> Result<bool, AllocError> {
    match read_text(alloc, text)? {
        ScriptRead::Fault { line, kind } => Ok(line == number && kind == wanted),
        _ => Ok(false),
    }
}

/// Whether each of the texts has this fault in its first line.
fn are_faulty(alloc: Global, texts: &[&[u8]], wanted: LineFault) -> Result<bool, AllocError> {
    for text in texts {
        if !is_faulty(alloc, text, 1, wanted)? {
            return Ok(false);
        }
    }
    Ok(true)
}

/// Whether the text is read, and is this in the strict form.
fn is_strictly(alloc: Global, text: &[u8], strict: &str) -> Result<bool, AllocError> {
    match read_text(alloc, text)? {
        ScriptRead::Commands(commands) => {
            let printed = print_script(alloc, commands.as_slice())?;
            Ok(printed.as_str() == strict)
        }
        _ => Ok(false),
    }
}

#[test]
fn each_form_is_read(rt: HostRuntime) -> Result<(), Fail> {
    let script =
        "clients 2\nmkdir 1 /a\nwrite 2 /a/b =x\nmove 1 /a /b/c\nremove 1 /a\nbit 2 /a on\nbit 2 /a off\nlist 1\nscan 1\nwatch 1\npull 1\nplan 1\nrestart 1\n";
    assert!(rt; is_strictly(rt.alloc(), script.as_bytes(), script)?);
    Ok(())
}

#[test]
fn each_further_form_is_read(rt: HostRuntime) -> Result<(), Fail> {
    let script =
        "web mkdir /a\nweb write /a/b =\nweb move /a /b\nweb remove /a\nweb bit /a on\nstart 1 4611686018427387904\ntake 1 2\ndone 1 3\nsync 1\nsync 1 reverse\nfail 1 1000000\n";
    assert!(rt; is_strictly(rt.alloc(), script.as_bytes(), script)?);
    Ok(())
}

#[test]
fn lines_are_read_leniently(rt: HostRuntime) -> Result<(), Fail> {
    let alloc = rt.alloc();
    let table = [
        (b"".as_slice(), ""),
        (b"\n  \n\r\n# web\n".as_slice(), ""),
        (b"  sync   1  \r\nsync 01".as_slice(), "sync 1\nsync 1\n"),
        (
            b"# first\nclients 16\nsync 16".as_slice(),
            "clients 16\nsync 16\n",
        ),
        (
            b"m%6bdir 1 /a%2Fb%20%zz%".as_slice(),
            "mkdir 1 /a/b%20%25zz%25\n",
        ),
        (
            b"write 1 /\xC3\xA4 =%00%fF~".as_slice(),
            "write 1 /%C3%A4 =%00%FF~\n",
        ),
        (b"write 1 /a *3:4a".as_slice(), "write 1 /a *3:4A\n"),
        (b"write 1 /a *0:ff\n".as_slice(), "write 1 /a *0:FF\n"),
    ];
    for (text, strict) in table {
        assert!(rt; is_strictly(alloc, text, strict)?);
    }
    Ok(())
}

/// Whether the commands are one, by which client 1 writes a file of three bytes `J`, given as a repetition.
fn write_three_bytes(commands: &[Command]) -> bool {
    match commands {
        [
            Command::User {
                client: 1,
                edit: UserEdit::Write(_, content),
            },
        ] => matches!(
            content,
            Filling::Repeat {
                count: 3,
                byte: 0x4A
            }
        ),
        _ => false,
    }
}

#[test]
fn a_repetition_keeps_its_form(rt: HostRuntime) -> Result<(), Fail> {
    let alloc = rt.alloc();
    let text = b"write 1 /z *3:4a".as_slice();
    let kept = match read_text(alloc, text)? {
        ScriptRead::Commands(commands) => write_three_bytes(commands.as_slice()),
        _ => false,
    };
    assert!(rt; kept);
    assert!(rt; is_strictly(alloc, text, "write 1 /z *3:4A\n")?);
    Ok(())
}

#[test]
fn control_characters_are_faulty(rt: HostRuntime) -> Result<(), Fail> {
    let table = [
        b"# \x07\n".as_slice(),
        b"\r".as_slice(),
        b"mkdir 1 /a\x7F\n".as_slice(),
        b"sync 1\tx\n".as_slice(),
        b"sync 1\r".as_slice(),
        b"sync 1\r\r\n".as_slice(),
    ];
    assert!(rt; are_faulty(rt.alloc(), &table, LineFault::Byte)?);
    Ok(())
}

#[test]
fn other_words_are_faulty(rt: HostRuntime) -> Result<(), Fail> {
    let table = [
        b"%23\n".as_slice(),
        b"SYNC 1\n".as_slice(),
        b"collect 1\n".as_slice(),
        b"web paint /a\n".as_slice(),
        b"web sync 1\n".as_slice(),
    ];
    assert!(rt; are_faulty(rt.alloc(), &table, LineFault::Word)?);
    Ok(())
}

#[test]
fn another_number_of_words_is_faulty(rt: HostRuntime) -> Result<(), Fail> {
    let table = [
        b"clients 2 3\n".as_slice(),
        b"fail 1\n".as_slice(),
        b"mkdir\n".as_slice(),
        b"move 1 /a\n".as_slice(),
        b"sync 1 x y\n".as_slice(),
        b"sync\n".as_slice(),
        b"watch 1 1\n".as_slice(),
        b"web  mkdir\n".as_slice(),
        b"web\n".as_slice(),
        b"write 1 /a =a b\n".as_slice(),
    ];
    assert!(rt; are_faulty(rt.alloc(), &table, LineFault::Count)?);
    Ok(())
}

#[test]
fn other_clients_are_faulty(rt: HostRuntime) -> Result<(), Fail> {
    let table = [
        b"mkdir +1 /a\n".as_slice(),
        b"mkdir 0 /a\n".as_slice(),
        b"mkdir 2 /a\n".as_slice(),
        b"mkdir x a\n".as_slice(),
        b"start 2 0\n".as_slice(),
        b"write 2 a x\n".as_slice(),
    ];
    assert!(rt; are_faulty(rt.alloc(), &table, LineFault::Client)?);
    Ok(())
}

#[test]
fn other_numbers_are_faulty(rt: HostRuntime) -> Result<(), Fail> {
    let table = [
        b"clients 0\n".as_slice(),
        b"clients 17\n".as_slice(),
        b"clients x\n".as_slice(),
        b"fail 1 0\n".as_slice(),
        b"fail 1 1000001\n".as_slice(),
        b"start 1 0\n".as_slice(),
        b"start 1 18446744073709551616\n".as_slice(),
        b"start 1 4611686018427387905\n".as_slice(),
    ];
    assert!(rt; are_faulty(rt.alloc(), &table, LineFault::Number)?);
    Ok(())
}

#[test]
fn other_paths_are_faulty(rt: HostRuntime) -> Result<(), Fail> {
    let table = [
        b"mkdir 1 /\n".as_slice(),
        b"mkdir 1 /%00\n".as_slice(),
        b"mkdir 1 /\xFF\n".as_slice(),
        b"mkdir 1 //a\n".as_slice(),
        b"mkdir 1 /a/\n".as_slice(),
        b"mkdir 1 a\n".as_slice(),
        b"move 1 /a b\n".as_slice(),
        b"write 1 /. =x\n".as_slice(),
        b"write 1 a x\n".as_slice(),
        b"bit 1 a maybe\n".as_slice(),
    ];
    assert!(rt; are_faulty(rt.alloc(), &table, LineFault::Path)?);
    Ok(())
}

#[test]
fn other_contents_are_faulty(rt: HostRuntime) -> Result<(), Fail> {
    let table = [
        b"write 1 /a *3\n".as_slice(),
        b"write 1 /a *3:4\n".as_slice(),
        b"write 1 /a *3:4aa\n".as_slice(),
        b"write 1 /a *67108865:00\n".as_slice(),
        b"write 1 /a *:4a\n".as_slice(),
        b"web write /a x\n".as_slice(),
    ];
    assert!(rt; are_faulty(rt.alloc(), &table, LineFault::Content)?);
    Ok(())
}

#[test]
fn the_last_words_are_judged_last(rt: HostRuntime) -> Result<(), Fail> {
    let alloc = rt.alloc();
    assert!(rt;
        are_faulty(
            alloc,
            &[
                b"sync 1 Reverse\n".as_slice(),
                b"sync 1 forward\n".as_slice()
            ],
            LineFault::Order
        )?
    );
    assert!(rt;
        are_faulty(
            alloc,
            &[
                b"bit 1 /s maybe\n".as_slice(),
                b"web bit /s ON\n".as_slice()
            ],
            LineFault::Switch
        )?
    );
    Ok(())
}

#[test]
fn the_first_faulty_line_counts(rt: HostRuntime) -> Result<(), Fail> {
    let alloc = rt.alloc();
    let table = [
        (b"clients 2\nsync 3\n".as_slice(), 2u64, LineFault::Client),
        (b"mkdir 1 /a\nwrite 1".as_slice(), 2, LineFault::Count),
        (b"sync 1\nclients\n".as_slice(), 2, LineFault::Count),
        (b"clients 2\nclients 2\n".as_slice(), 2, LineFault::Late),
        (b"sync 1\nclients 99\n".as_slice(), 2, LineFault::Late),
        (
            b"mkdir 1 /a\n\npaint 1 /c\nsync 9\n".as_slice(),
            3,
            LineFault::Word,
        ),
    ];
    for (text, number, kind) in table {
        assert!(rt; is_faulty(alloc, text, number, kind)?);
    }
    Ok(())
}

/// A comment of so many bytes, and an end.
fn comment(alloc: Global, bytes: usize, end: &[u8]) -> Result<Vec<u8>, AllocError> {
    let mut text = vec![in alloc; b'#'; bytes]?;
    text.extend_from_slice(end)?;
    Ok(text)
}

#[test]
fn lines_have_a_greatest_length(rt: HostRuntime) -> Result<(), Fail> {
    let alloc = rt.alloc();
    for end in [b"".as_slice(), b"\n".as_slice(), b"\r\n".as_slice()] {
        assert!(rt; is_strictly(alloc, &comment(alloc, 4096, end)?, "")?);
        assert!(rt; is_faulty(alloc, &comment(alloc, 4097, end)?, 1, LineFault::Long)?);
    }
    Ok(())
}

#[test]
fn a_script_has_at_most_1000000_lines(rt: HostRuntime) -> Result<(), Fail> {
    let alloc = rt.alloc();
    let mut text = vec![in alloc; b'\n'; 1_000_000]?;
    assert!(rt; is_strictly(alloc, &text, "")?);
    text.push(b'#')?;
    assert!(rt; is_faulty(alloc, &text, 1_000_001, LineFault::Many)?);
    Ok(())
}

#[test]
fn a_fault_of_the_source_is_told(rt: HostRuntime) -> Result<(), Fail> {
    let alloc = rt.alloc();
    let mut source = MemSource::new(alloc, b"sync 1\n".to_vec(alloc)?);
    source.fail_at(1)?;
    let read = read_script(alloc, &mut source);
    assert!(rt; matches!(read, ScriptRead::ReadFault));
    crate::is_read_in_one_way();
    crate::is_read_again();
    crate::has_fitting_commands();
    Ok(())
}
