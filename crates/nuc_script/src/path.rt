ghost use Rattle.std.specs.Prelude.{◌≡◌, IfOk};
ghost use Rattle.nuc_script.specs.Paths.{names_in, name_in, path_of, pieces};

use crate::cut::cut;
use nuc_base::{Name, NameFault, Path};
use sqlite_items::Items;
use std::alloc::{AllocError, Global};

/// The path that the bytes are, if they are one: a `/` and a name, once or more.
pub(crate) fn path_of(alloc: Global, bytes: &[u8]) -> Result<Option<Path>, AllocError>
    ensures { IfOk result (λ found. found ≡ path_of bytes.now) }
{
    let Some((b'/', text)) = bytes.split_first() else {
        return Ok(None);
    };
    match names_in(alloc, text)? {
        Some(names) => Ok(Some(Path { names })),
        None => Ok(None),
    }
}

/// What stands between the slashes, where each is a name.
fn names_in(alloc: Global, text: &[u8]) -> Result<Option<Items<Name>>, AllocError>
    ensures { IfOk result (λ found. found ≡ names_in (pieces text.now)) }
{
    let mut names = Items::new(alloc);
    let mut rest = Some(text);
    while let Some(text) = rest {
        let (piece, behind) = cut(text, b'/');
        let Some(name) = name_in(alloc, piece)? else {
            return Ok(None);
        };
        names.push(name)?;
        rest = behind;
    }
    Ok(Some(names))
}

/// The name of these bytes, if they are one.
fn name_in(alloc: Global, bytes: &[u8]) -> Result<Option<Name>, AllocError>
    ensures { IfOk result (λ found. found ≡ name_in bytes.now) }
{
    match Name::new(alloc, bytes) {
        Ok(name) => Ok(Some(name)),
        Err(fault) => match fault {
            NameFault::Memory => Err(AllocError),
            _ => Ok(None),
        },
    }
}
