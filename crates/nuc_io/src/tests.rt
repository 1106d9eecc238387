use super::*;
use std::test::Fail;

#[test]
fn lines_come_whole_and_the_last_may_lack_its_lf(rt: HostRuntime) -> Result<(), Fail> {
    let alloc = rt.alloc();
    let mut source = MemSource::new(alloc, b"one\n\nend".to_vec(alloc)?);
    let mut line = LineBuf::new(alloc);
    let wanted = [
        (Line::Whole, b"one".as_slice(), true),
        (Line::Whole, b"".as_slice(), true),
        (Line::Whole, b"end".as_slice(), false),
        (Line::End, b"".as_slice(), false),
    ];
    for (answer, bytes, ended) in wanted {
        let read = read_line(&mut source, &mut line);
        assert!(rt; read == answer);
        assert!(rt; line.bytes() == bytes && line.ended() == ended);
    }
    Ok(())
}

#[test]
fn no_line_follows_a_fault(rt: HostRuntime) -> Result<(), Fail> {
    let alloc = rt.alloc();
    let mut source = MemSource::new(alloc, b"ab\nc\n".to_vec(alloc)?);
    source.fail_at(2)?;
    let mut line = LineBuf::new(alloc);
    let first = read_line(&mut source, &mut line);
    let second = read_line(&mut source, &mut line);
    assert!(rt; first == Line::ReadFault && second == Line::Spent);
    Ok(())
}

#[test]
fn a_line_has_at_most_4097_bytes(rt: HostRuntime) -> Result<(), Fail> {
    let alloc = rt.alloc();
    for (length, answer) in [(4097usize, Line::Whole), (4098usize, Line::TooLong)] {
        let mut bytes = vec![in alloc; b'x'; length]?;
        bytes.push(b'\n')?;
        let mut source = MemSource::new(alloc, bytes);
        let mut line = LineBuf::new(alloc);
        let read = read_line(&mut source, &mut line);
        assert!(rt; read == answer);
    }
    Ok(())
}

#[test]
fn what_went_out_before_a_fault_stays(rt: HostRuntime) -> Result<(), Fail> {
    let alloc = rt.alloc();
    let mut sink = MemSink::new(alloc);
    sink.fail_at(2)?;
    let first = write_all(&mut sink, b"abc");
    let second = write_all(&mut sink, b"def");
    let third = write_all(&mut sink, b"gh");
    assert!(rt; first.is_ok() && second.is_err() && third.is_ok());
    assert!(rt; sink.bytes() == b"abcgh".as_slice());
    Ok(())
}

#[test]
fn readers_and_writers_of_std_serve(rt: HostRuntime) -> Result<(), Fail> {
    let alloc = rt.alloc();
    let mut source = StdSource::new(b"line\n".as_slice());
    let mut line = LineBuf::new(alloc);
    let first = read_line(&mut source, &mut line);
    assert!(rt; first == Line::Whole && line.bytes() == b"line".as_slice());
    let second = read_line(&mut source, &mut line);
    assert!(rt; second == Line::End);
    let mut room = [0u8; 4];
    let mut sink = StdSink::new(room.as_mut_slice());
    let fits = write_all(&mut sink, b"abcd");
    let too_much = write_all(&mut sink, b"e");
    assert!(rt; fits.is_ok() && too_much.is_err());
    Ok(())
}
