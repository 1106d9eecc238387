//! That the folders of a world have nothing that a scan must refuse.
#![tactic(auto)]

mod laws;

pub use laws::each_folder_is_fit;
