ghost use Rattle.std.specs.Prelude.{◌≡◌, [], ◌++◌, IfOk, OnOk, option_copied};
ghost use Rattle.std.specs.List.{flat_map};
ghost use Rattle.std.specs.Option.{option_map_or};
ghost use Rattle.std.specs.String.{string_bytes};
ghost use Rattle.nuc_report.specs.Report.{adoption_line, change_words, edit_line};
ghost use Rattle.nuc_script.specs.Text.{joined};

use nuc_edits::{Adoption, Edit, EditKind, Edits};
use nuc_hash::hash_text;
use std::alloc::{AllocError, Global};

/// Pushes a line for each edit.
pub(crate) fn push_edits(alloc: Global, text: &mut String, edits: &Edits) -> Result<(), AllocError>
    ensures { OnOk result (string_bytes text.new ≡ string_bytes text.old ++ flat_map edit_line edits.now.now.edits) }
{
    for i in 0..edits.len() {
        push_edit(alloc, text, edits.entry(i))?;
    }
    Ok(())
}

fn push_edit(alloc: Global, text: &mut String, edit: Option<&Edit>) -> Result<(), AllocError>
    ensures { OnOk result (string_bytes text.new ≡ string_bytes text.old ++ option_map_or edit_line (option_copied edit.entry) []) }
{
    if let Some(edit) = edit {
        text.push_str(edit_line(alloc, edit)?.as_str())?;
    }
    Ok(())
}

fn edit_line(alloc: Global, edit: &Edit) -> Result<String, AllocError>
    ensures { IfOk result (λ text. string_bytes text ≡ edit_line edit.now) }
{
    let ver = edit.ver.0;
    let id = edit.id.0;
    let base = edit.base.0;
    let change = change_text(alloc, &edit.what)?;
    format!(in alloc; "edit {ver} {id} {base} {change}\n")
}

fn change_text(alloc: Global, what: &EditKind) -> Result<String, AllocError>
    ensures { IfOk result (λ text. string_bytes text ≡ joined (change_words what.now)) }
{
    match what {
        EditKind::Put(content) => {
            let size = content.size();
            let hash = hash_text(alloc, content.hash())?;
            format!(in alloc; "put {size} {hash}")
        }
        EditKind::Deleted => format!(in alloc; "deleted"),
    }
}

/// Pushes a line for each adoption.
pub(crate) fn push_adoptions(
    alloc: Global,
    text: &mut String,
    edits: &Edits,
) -> Result<(), AllocError>
    ensures { OnOk result (string_bytes text.new ≡ string_bytes text.old ++ flat_map adoption_line edits.now.now.adoptions) }
{
    for i in 0..edits.adoption_count() {
        push_adoption(alloc, text, edits.adoption(i))?;
    }
    Ok(())
}

fn push_adoption(
    alloc: Global,
    text: &mut String,
    adoption: Option<&Adoption>,
) -> Result<(), AllocError>
    ensures { OnOk result (string_bytes text.new ≡ string_bytes text.old ++ option_map_or adoption_line (option_copied adoption.entry) []) }
{
    if let Some(adoption) = adoption {
        let old = adoption.old.0;
        let into = adoption.into.0;
        let line = format!(in alloc; "adopt {old} {into}\n")?;
        text.push_str(line.as_str())?;
    }
    Ok(())
}
