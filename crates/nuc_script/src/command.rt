use nuc_folder::UserEdit;
use nuc_server::WebEdit;

/// What one line of a script says.
#[derive(Debug, Drop)]
pub enum Command {
    /// The script has so many clients.
    Clients(u32),
    /// The user of this client edits its folder.
    User { client: u32, edit: UserEdit },
    /// The server is edited on the web.
    Web(WebEdit),
    /// This client lists its folder.
    List(u32),
    /// This client takes its last listing over into Local.
    Scan(u32),
    /// This client looks for one change of its folder.
    Watch(u32),
    /// This client takes a page of the server's journal over into Remote.
    Pull(u32),
    Plan(u32),
    /// This client forgets what it has in flight.
    Restart(u32),
    /// An operation of this client's plan is started.
    Start { client: u32, number: u64 },
    /// What a started operation has to do is done.
    Take { client: u32, number: u64 },
    /// What a taken operation did is noted.
    Done { client: u32, number: u64 },
    /// This client is synced until nothing is to be done, the operations of each batch from the first to the last or, in
    /// reverse, from the last to the first.
    Sync { client: u32, reverse: bool },
    /// From now on, this call on this client's folder fails, counted from 1.
    Fail { client: u32, call: u64 },
}
