//! What happens in a world: the events, the replies to them, the log of both, and what is to be seen of it.
#![tactic(auto)]

mod event;
mod log;
mod reply;
mod view;

pub use event::Event;
pub use log::{Log, LogEntry};
pub use reply::{MarkReply, Reply, StartReply, TakeReply};
pub use view::{Member, View};
