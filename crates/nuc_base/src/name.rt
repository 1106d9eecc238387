ghost use Rattle.std.specs.Prelude.{◌≡◌, ◌≢◌, ◌⊎◌, ◌<◌, ◌≤◌, [], ◌∷◌, length, IfOk, MatchBool, MatchResult};
ghost use Rattle.std.specs.List.{take_while};
ghost use Rattle.nuc_base.specs.Candidates.{candidate};
ghost use Rattle.nuc_base.specs.Names.{IsName, is_plain, good_len};
ghost use Rattle.nuc_base.specs.NameFaults.{NameFaulty};
ghost use Rattle.nuc_base.specs.SamePlace.{SameName, name_order};

use crate::{NameFault, NameRoom, copy_name};
use std::alloc::{AllocError, Global};
use std::cmp::Ordering;
use std::marker::Model;
use std::str;

/// The most bytes of a name.
pub(crate) const MAX_LEN: usize = 255;

/// The name of a file or folder: 1 to 255 bytes of UTF-8, without `/` and NUL, and neither `.` nor `..`.
#[derive(Debug, Drop)]
pub struct Name {
    bytes: Vec<u8>,
}

impl Model for Name {
    ghost use Rattle.std.specs.Prelude.{List, ℕ};
    ghost use Rattle.nuc_base.specs.Names.{IsName};

    ghost Value = { List ℕ };

    ghost view = { λ n. n.bytes.items };

    ghost invariant = { λ n. IsName n.bytes.items };
}

impl Name {
    /// The name of these bytes. The faults come in the order in which `NameFault` lists them.
    pub fn new(alloc: Global, bytes: &[u8]) -> Result<Name, NameFault>
        ensures { MatchResult result (λ n. (n ≡ bytes.now) × IsName bytes.now) (λ e. NameFaulty bytes.now e) }
    {
        check(bytes)?;
        let bytes = Vec::from_slice(alloc, bytes).map_err(|_| NameFault::Memory)?;
        Ok(Name { bytes })
    }

    /// UTF-8, without a terminator.
    pub fn bytes(&self) -> &[u8]
        ensures value { result.now ≡ self.now }
        ensures name { IsName self.now }
    {
        &self.bytes
    }

    /// The same name, in memory of its own.
    pub fn copy(&self, alloc: Global) -> Result<Name, AllocError>
        ensures { IfOk result (λ n. n ≡ self.now) }
    {
        let bytes = Vec::from_slice(alloc, &self.bytes)?;
        Ok(Name { bytes })
    }

    /// The same name, in room that was made before.
    pub fn copy_in(&self, room: NameRoom) -> Name
        ensures { result ≡ self.now }
    {
        Name {
            bytes: room.filled(&self.bytes),
        }
    }

    /// The name that is tried for a copy where this name and the candidates of the lower numbers are taken; they count from 1.
    pub fn conflicted_copy(&self, alloc: Global, number: u64) -> Result<Name, AllocError>
        requires { 0 < number }
        ensures { IfOk result (λ n. n ≡ candidate self.now number) }
    {
        let bytes = copy_name::candidate(alloc, self.bytes(), number)?;
        Ok(Name { bytes })
    }

    /// Whether two siblings can't have these two names.
    pub fn same(&self, other: &Name) -> bool
        ensures { MatchBool result (SameName self.now other.now) (¬ (SameName self.now other.now)) }
    {
        self.bytes() == other.bytes()
    }

    /// The order of siblings by their names: `Equal` exactly where the names are the same.
    pub fn order(&self, other: &Name) -> Ordering
        ensures { result ≡ name_order self.now other.now }
    {
        self.bytes().cmp(other.bytes())
    }
}

/// Whether the bytes are a name, and if not, the first reason why.
fn check(bytes: &[u8]) -> Result<(), NameFault>
    ensures { MatchResult result (λ _. IsName bytes.now) (λ e. NameFaulty bytes.now e) }
{
    if bytes.is_empty() {
        return Err(NameFault::Empty);
    }
    if bytes.len() > MAX_LEN {
        return Err(NameFault::TooLong(bytes.len()));
    }
    let good = good_front(bytes);
    if good < bytes.len() {
        return Err(NameFault::BadByte(good));
    }
    if is_dots(bytes) {
        return Err(NameFault::Dots);
    }
    Ok(())
}

/// The length of the longest front of whole characters, none of which is NUL or `/`.
fn good_front(bytes: &[u8]) -> usize
    ensures value { result ≡ good_len bytes.now }
    ensures within { result ≤ length bytes.now }
{
    let plain = plain_front(bytes);
    match str::from_utf8(plain) {
        Ok(text) => text.len(),
        Err(fault) => fault.valid_up_to(),
    }
}

/// The bytes before the first NUL or `/`.
fn plain_front(bytes: &[u8]) -> &[u8]
    ensures value { result.now ≡ take_while is_plain bytes.now }
    ensures within { length result.now ≤ length bytes.now }
{
    for (i, byte) in bytes.iter().enumerate() {
        if *byte == 0 || *byte == b'/' {
            return &bytes[..i];
        }
    }
    bytes
}

fn is_dots(bytes: &[u8]) -> bool
    ensures { MatchBool result ((bytes.now ≡ 46 ∷ []) ⊎ (bytes.now ≡ 46 ∷ 46 ∷ [])) ((bytes.now ≢ 46 ∷ []) × (bytes.now ≢ 46 ∷ 46 ∷ [])) }
{
    matches!(bytes, b"." | b"..")
}
