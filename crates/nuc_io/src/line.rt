ghost use Rattle.std.specs.Prelude.{◌≡◌, [], false, ◌<◌, ◌+◌, ◌≤◌, vec_capacity};
ghost use Rattle.nuc_io.specs.Causes.{HasCause};
ghost use Rattle.nuc_io.specs.Line.{ReadsLine, EndsBy};
ghost use Rattle.nuc_io.specs.Filling.{Fills, GetsByte};

use crate::{Got, Source};
use std::alloc::Global;
use std::marker::Model;

/// So many bytes without LF are no line any more.
const TOO_LONG: usize = 4098;

const LF: u8 = 10;

/// How the reading of a line is answered.
#[derive(Clone, Copy, Debug, PartialEq, Eq)]
pub enum Line {
    /// The buffer holds a line of at most 4,097 bytes, without its LF. Only the last line may have none.
    Whole,
    /// No byte was left.
    End,
    /// The source failed.
    ReadFault,
    /// 4,098 bytes without LF were read.
    TooLong,
    /// The line before couldn't be read, so that it isn't known where the next begins. Nothing was read.
    Spent,
    Memory,
}

/// A buffer for one line after another of one source.
#[derive(Debug, Drop)]
pub struct LineBuf {
    bytes: Vec<u8>,
    ended: bool,
    spent: bool,
}

impl Model for LineBuf {
    ghost use Rattle.nuc_io.specs.Line.{LineData};

    ghost Value = { LineData };

    ghost view = { λ b. record { bytes = b.bytes.items; ended = b.ended; spent = b.spent } };
}

impl LineBuf {
    pub fn new(alloc: Global) -> LineBuf
        ensures { result ≡ record { bytes = []; ended = false; spent = false } }
    {
        LineBuf {
            bytes: Vec::new(alloc),
            ended: false,
            spent: false,
        }
    }

    /// The line, without its LF.
    pub fn bytes(&self) -> &[u8]
        ensures { result.now ≡ self.now.bytes }
    {
        &self.bytes
    }

    /// Whether an LF ended the line.
    pub fn ended(&self) -> bool
        ensures { result ≡ self.now.ended }
    {
        self.ended
    }
}

/// Reads the next line into the buffer. After `TooLong`, `ReadFault` or `Memory` every later call with it is answered
/// `Spent`.
pub fn read_line<S: Source>(src: &mut S, line: &mut LineBuf) -> Line
    ensures line { ReadsLine line.old result line.new (S.left src.old) (S.left src.new) }
    ensures end { EndsBy result line.new (S.ended src.new) }
    ensures stays_ended { S.ended src.old → S.ended src.new }
    ensures cause { HasCause (S.faults src.old) (S.faults src.new) (result ≡ Line.ReadFault) }
{
    if line.spent {
        return Line::Spent;
    }
    line.bytes.clear();
    line.ended = false;
    // Room for the whole line first, so that no byte is taken and then has no place.
    if line.bytes.reserve(TOO_LONG).is_err() {
        line.spent = true;
        return Line::Memory;
    }
    match fill(src, &mut line.bytes) {
        Filled::Lf => {
            line.ended = true;
            Line::Whole
        }
        Filled::End if line.bytes.is_empty() => Line::End,
        Filled::End => Line::Whole,
        Filled::Failed => {
            line.spent = true;
            Line::ReadFault
        }
        Filled::TooLong => {
            line.spent = true;
            Line::TooLong
        }
    }
}

/// What came behind the bytes that were taken.
#[derive(Clone, Copy)]
enum Filled {
    Lf,
    End,
    Failed,
    TooLong,
}

/// Takes bytes up to the next LF, which is taken too.
fn fill<S: Source>(src: &mut S, bytes: &mut Vec<u8>) -> Filled
    requires empty { bytes.old.items ≡ [] }
    requires room { 4098 ≤ vec_capacity bytes.old }
    ensures fills { Fills result bytes.new.items (S.left src.old) (S.left src.new) }
    ensures end { result ≡ Filled.End → S.ended src.new }
    ensures stays_ended { S.ended src.old → S.ended src.new }
    ensures cause { HasCause (S.faults src.old) (S.faults src.new) (result ≡ Filled.Failed) }
{
    for _ in 0..TOO_LONG {
        match next_byte(src) {
            Byte::Some(LF) => return Filled::Lf,
            Byte::Some(byte) => {
                let _ = bytes.push(byte);
            }
            Byte::End => return Filled::End,
            Byte::Failed => return Filled::Failed,
        }
    }
    Filled::TooLong
}

#[derive(Clone, Copy)]
enum Byte {
    Some(u8),
    End,
    Failed,
}

fn next_byte<S: Source>(src: &mut S) -> Byte
    ensures byte { GetsByte (S.left src.old) result (S.left src.new) }
    ensures end { result ≡ Byte.End → S.ended src.new }
    ensures stays_ended { S.ended src.old → S.ended src.new }
    ensures cause { HasCause (S.faults src.old) (S.faults src.new) (result ≡ Byte.Failed) }
{
    let mut buf = [0u8; 1];
    match src.read(&mut buf) {
        Got::Some(_) => Byte::Some(buf[0]),
        Got::End => Byte::End,
        Got::Failed => Byte::Failed,
    }
}
