ghost use Rattle.nuc_fit.specs.Laws.{FoldersAreFit};

/// Whatever log led to a world, each client's folder has nothing there that a scan must refuse, if the log is no longer than
/// a world lets it be and its edits keep to the bounds of a script.
pub fn each_folder_is_fit()
    ensures { FoldersAreFit }
{}
