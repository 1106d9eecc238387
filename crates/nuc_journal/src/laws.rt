ghost use Rattle.nuc_journal.specs.Laws.{TreesAreFormed, RevisionsCount, KindsStay, LastEntryStands, CurrentRevisionsGave, PagesLead};

/// The tree at each revision of a journal is well formed; so no node stands at 0.
pub fn trees_are_formed()
    ensures { TreesAreFormed }
{}

/// The revision of an entry is its place in the journal, counted from 1.
pub fn revisions_count()
    ensures { RevisionsCount }
{}

/// All nodes that an identity has had are of one kind, also where one went in between.
pub fn kinds_stay()
    ensures { KindsStay }
{}

/// What stands at an identity in the last tree is what its last entry says.
pub fn last_entry_stands()
    ensures { LastEntryStands }
{}

/// The current revision of an identity is that of the entry which gave it its node, and 0 where it has none.
pub fn current_revisions_gave()
    ensures { CurrentRevisionsGave }
{}

/// The entries of a page lead from the tree at the revision that was asked for to the tree at the last of them.
pub fn pages_lead()
    ensures { PagesLead }
{}
