ghost use Rattle.nuc_replica.specs.Following.{MoreEntriesKeepIt, NextEntriesFollow, RemotesStayAt};

/// Where a remote is what the server's journal comes to at its cursor, it may pull or hear the next entries of that.
pub fn next_entries_follow()
    ensures { NextEntriesFollow }
{}

/// Whatever such a remote pulls, hears, catches up on or forgets, it is what the journal comes to at its new cursor.
pub fn remotes_stay_at_a_revision()
    ensures { RemotesStayAt }
{}

/// It stays so while the journal gets more entries.
pub fn more_entries_keep_remotes()
    ensures { MoreEntriesKeepIt }
{}
