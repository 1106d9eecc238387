use crate::fault::Fault;
use crate::layout::FILES;
use nuc_folder::{Item, Key};
use nuc_hash::content_of;
use sqlite_items::Items;
use std::alloc::{AllocError, Global};

/// So many items: folders with their files, each folder before what it has. Where they are changed, each file has another
/// name and another content.
pub(crate) fn listing(alloc: Global, count: u64, changed: bool) -> Result<Vec<Item>, Fault> {
    let mut items = Vec::new(alloc);
    let mut parent = Key(0);
    for number in 0..count {
        let key = Key(number.checked_add(1).ok_or(AllocError)?);
        if number % (FILES + 1) == 0 {
            parent = key;
            items.push(folder(alloc, key)?)?;
        } else {
            items.push(file(alloc, key, parent, changed)?)?;
        }
    }
    Ok(items)
}

fn folder(alloc: Global, key: Key) -> Result<Item, Fault> {
    let number = key.0;
    let name = format!(in alloc; "d{number}")?;
    Ok(Item {
        key,
        parent: Key(0),
        content: None,
        name: Items::from_slice(alloc, name.as_bytes())?,
        bit: false,
    })
}

/// A file that holds its own name.
fn file(alloc: Global, key: Key, parent: Key, changed: bool) -> Result<Item, Fault> {
    let letter = if changed { 'g' } else { 'f' };
    let number = key.0;
    let name = format!(in alloc; "{letter}{number}")?;
    Ok(Item {
        key,
        parent,
        content: Some(content_of(alloc, name.as_bytes())?),
        name: Items::from_slice(alloc, name.as_bytes())?,
        bit: false,
    })
}
