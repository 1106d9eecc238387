ghost use Rattle.std.specs.Prelude.{◌≡◌, IfOk, map};
ghost use Rattle.nuc_lookup.specs.Rows.{AreApart, numbers_in};
ghost use Rattle.nuc_observe.specs.Observed.{IsInOrderBy, bindings, id_of, identity, identity_rows, listed_ids, next_id_after};
ghost use Rattle.nuc_observe.specs.Turns.{next_after};

use crate::{Binding, Keys};
use nuc_base::NodeId;
use nuc_folder::{Item, Key};
use nuc_lookup::{Lookup, Row};
use std::alloc::{AllocError, Global};

/// The identities of a listing's keys.
#[derive(Drop)]
pub(crate) struct Identities {
    pub(crate) by_key: Lookup,
    /// In order of identity.
    pub(crate) bindings: Vec<Binding>,
    pub(crate) next_id: u64,
}

/// The keys and identities in order of the listing, and the next identity.
#[derive(Drop)]
struct DrawnRows {
    rows: Vec<Row>,
    next_id: u64,
}

/// No key is listed twice.
pub(crate) fn identities_of(
    alloc: Global,
    items: &[Item],
    keys: &Keys,
    next_id: u64,
) -> Result<Identities, AllocError>
    requires { AreApart (identity_rows keys.now.now next_id items.now) }
    ensures by_key { IfOk result (λ found. found.by_key.numbers ≡ listed_ids keys.now.now next_id items.now) }
    ensures bindings { IfOk result (λ found. IsInOrderBy (λ k. k.id.0) (bindings (identity_rows keys.now.now next_id items.now)) found.bindings.items) }
    ensures next { IfOk result (λ found. found.next_id ≡ next_id_after keys.now.now next_id items.now) }
{
    let DrawnRows { rows, next_id } = drawn_rows(alloc, items, keys, next_id)?;
    let bindings = sorted_bindings(alloc, &rows)?;
    Ok(Identities {
        by_key: Lookup::of(rows),
        bindings,
        next_id,
    })
}

fn drawn_rows(
    alloc: Global,
    items: &[Item],
    keys: &Keys,
    next_id: u64,
) -> Result<DrawnRows, AllocError>
    ensures rows { IfOk result (λ drawn. drawn.rows.items ≡ identity_rows keys.now.now next_id items.now) }
    ensures next { IfOk result (λ drawn. drawn.next_id ≡ next_id_after keys.now.now next_id items.now) }
{
    let mut rows = Vec::new(alloc);
    let mut next = next_id;
    for item in items {
        let own = own_id(keys, item.key);
        let from = item.key.0;
        let to = own.unwrap_or(next);
        rows.push(Row { from, to })?;
        next = number_after(own, next)?;
    }
    Ok(DrawnRows {
        rows,
        next_id: next,
    })
}

/// The identity that has the key in Local.
pub fn own_id(keys: &Keys, key: Key) -> Option<u64>
    ensures { result ≡ id_of keys.now.now key.0 }
{
    match keys.id_of(key) {
        Some(id) => Some(id.0),
        None => None,
    }
}

/// The next number after a turn. Where no number would be left, that counts as want of memory.
pub(crate) fn number_after(own: Option<u64>, next: u64) -> Result<u64, AllocError>
    ensures { IfOk result (λ after. after ≡ next_after own next) }
{
    match own {
        Some(_) => Ok(next),
        None => next.checked_add(1).ok_or(AllocError),
    }
}

fn sorted_bindings(alloc: Global, rows: &[Row]) -> Result<Vec<Binding>, AllocError>
    ensures { IfOk result (λ sorted. IsInOrderBy (λ k. k.id.0) (bindings rows.now) sorted.items) }
{
    let mut bindings = bindings_of(alloc, rows)?;
    bindings.sort_unstable_by_key(|binding| binding.id.0);
    Ok(bindings)
}

fn bindings_of(alloc: Global, rows: &[Row]) -> Result<Vec<Binding>, AllocError>
    ensures { IfOk result (λ made. made.items ≡ bindings rows.now) }
{
    rows.iter()
        .map(|row| Binding {
            id: NodeId(row.to),
            key: Key(row.from),
        })
        .collect(alloc)
}

/// The identity of a listed key; that of the folder itself is 0.
pub(crate) fn identity(by_key: &Lookup, key: Key) -> NodeId
    ensures { result.0 ≡ identity by_key.now.numbers key.0 }
{
    NodeId(by_key.get(key.0).unwrap_or(0))
}
