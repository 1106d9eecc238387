ghost use Rattle.std.specs.Prelude.{◌≡◌, ◌<◌, ◌≤◌, ◌+◌, ◌++◌, length, IfOk, string_bytes};
ghost use Rattle.nuc_base.specs.Candidates.{CandidatesDiffer};
ghost use Rattle.nuc_base.specs.Candidates as copy;

use crate::name::MAX_LEN;
use std::alloc::{AllocError, Global};
use std::str;

/// The most bytes of an extension, without its dot.
const MAX_EXTENSION: usize = 16;

/// The bytes of the candidate of this number, from 1 on, for a copy of what has this name.
pub fn candidate(alloc: Global, name: &[u8], number: u64) -> Result<Vec<u8>, AllocError>
    requires { 0 < number }
    ensures { IfOk result (λ bytes. bytes.items ≡ copy.candidate name.now number) }
{
    let label = label(alloc, number)?;
    let label = label.as_bytes();
    let (stem, extension) = name.split_at(name.len() - extension_len(name));
    let room = MAX_LEN - (label.len() + extension.len());
    joined(alloc, cut_text(room, stem), label, extension)
}

fn joined(alloc: Global, front: &[u8], middle: &[u8], back: &[u8]) -> Result<Vec<u8>, AllocError>
    requires { length front.now + (length middle.now + length back.now) ≤ 255 }
    ensures { IfOk result (λ bytes. bytes.items ≡ front.now ++ (middle.now ++ back.now)) }
{
    let mut bytes = Vec::with_capacity(alloc, front.len() + middle.len() + back.len())?;
    bytes.extend_from_slice(front)?;
    bytes.extend_from_slice(middle)?;
    bytes.extend_from_slice(back)?;
    Ok(bytes)
}

/// The length of a name's extension with its dot.
fn extension_len(name: &[u8]) -> usize
    ensures value { result ≡ copy.extension_len name.now }
    ensures within { result ≤ length name.now }
    ensures short { result ≤ 17 }
{
    extension_within(name.len(), after_dot(name))
}

/// The length of an extension, dot and all, by how many bytes of the name stand after its last `.`.
fn extension_within(len: usize, after: Option<usize>) -> usize
    ensures value { result ≡ copy.extension_within len after }
    ensures within { result ≤ len }
    ensures short { result ≤ 17 }
{
    match after {
        Some(after) => {
            if 0 < after && after <= MAX_EXTENSION && after + 1 < len {
                after + 1
            } else {
                0
            }
        }
        None => 0,
    }
}

/// How many bytes of the name stand after its last `.`.
fn after_dot(name: &[u8]) -> Option<usize>
    ensures { result ≡ copy.after_dot name.now }
{
    name.iter().rev().position(|byte| *byte == b'.')
}

fn label(alloc: Global, number: u64) -> Result<String, AllocError>
    ensures value { IfOk result (λ text. string_bytes text ≡ copy.label number) }
    ensures short { IfOk result (λ text. length (string_bytes text) ≤ 39) }
{
    if number == 1 {
        return String::from_str(alloc, " (conflicted copy)");
    }
    format!(in alloc; " (conflicted copy {number})")
}

/// The longest front of whole characters that has at most this many bytes.
fn cut_text(room: usize, text: &[u8]) -> &[u8]
    ensures value { result.now ≡ copy.cut_text room text.now }
    ensures within { length result.now ≤ room }
{
    let front = &text[..room.min(text.len())];
    match str::from_utf8(front) {
        Ok(_) => front,
        Err(fault) => &front[..fault.valid_up_to()],
    }
}

/// Any two candidates of one name are different names.
pub fn candidates_differ()
    ensures { CandidatesDiffer }
{}
