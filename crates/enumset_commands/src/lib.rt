//! Commands on sets of bit numbers and the replies to them, and the texts of both.
//!
//! Nothing here knows sets: `enumset_machine` says what commands do, and does it.
#![tactic(auto)]

pub mod command;
pub mod grammar;
pub mod mixed_command;
pub mod names;
pub mod reply;
pub mod text_fault;
pub mod transcript;
pub mod word_list;

pub use command::Command;
pub use grammar::line_command::LineCommand;
pub use mixed_command::MixedCommand;
pub use reply::{Refusal, Reply};
pub use text_fault::TextFault;
pub use transcript::{write_reply, write_words};
pub use word_list::WordList;
