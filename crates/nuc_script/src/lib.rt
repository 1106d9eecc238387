//! Scripts: a line for each command, read to the first faulty line.
#![tactic(auto)]

mod arguments;
mod command;
mod commands;
mod content;
mod cut;
mod edits;
mod escape;
mod fault;
mod line;
mod number;
mod path;
mod print;
mod print_words;
mod read;
mod script_read;
mod verb;
mod words;

pub use command::Command;
pub use fault::LineFault;
pub use print::{is_read_again, print_script, web_line};
pub use print_words::{content_text, path_text, push_escaped, switch_text};
pub use read::read_script;
pub use script_read::{ScriptRead, has_fitting_commands, is_read_in_one_way};

#[cfg(test)]
mod tests;
