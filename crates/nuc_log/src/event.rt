use nuc_folder::UserEdit;
use nuc_server::WebEdit;

/// One thing that happens, and is answered in one step. Clients count from 1.
#[derive(Debug, Drop)]
pub enum Event {
    /// The user edits the client's folder.
    User { client: u32, edit: UserEdit },
    /// The server is edited on the web.
    Web { edit: WebEdit },
    /// The client lists its folder, and holds the listing.
    List { client: u32 },
    /// The client takes the held listing over into Local.
    Scan { client: u32 },
    /// The client takes the user's oldest change that it wasn't told yet over into Local.
    Watch { client: u32 },
    /// The client takes a page of the server's journal over into Remote.
    Pull { client: u32 },
    /// The client plans what comes next.
    Plan { client: u32 },
    /// The client begins an operation; an upload reads its file.
    Start { client: u32, number: u64 },
    /// The outside change of an operation is made.
    Take { client: u32, number: u64 },
    /// The client learns how an operation ended.
    Done { client: u32, number: u64 },
    /// The client forgets what is in flight, and the listing that it holds.
    Restart { client: u32 },
    /// The client notes whether its trees agree.
    Mark { client: u32 },
}
