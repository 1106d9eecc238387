ghost use Rattle.nuc_server.specs.Versions.{WebLosesNothing};
ghost use Rattle.nuc_server.specs.Web.{OneWebAnswer};

/// A web edit of one state has one answer and one outcome, but that memory may be wanted.
pub fn has_one_web_answer()
    ensures { OneWebAnswer }
{}

/// Whatever a web edit is answered, no version is lost: a node has it still, or an edit replaced it.
pub fn loses_no_version()
    ensures { WebLosesNothing }
{}
