//! The arguments of the command line: the jobs that they name, and the texts of help.
//!
//! What [`read_arguments`] gives is what clap's matches of the words hold, and the program's
//! grammar takes these words (`AskFor` of `specs/Jobs.antt`). The job may be done (`MayBeDone`).
//! One of its files at most is standard input. What it writes goes to different files, none of
//! which it reads or a client has. Its clients have different names. An error of clap is of a kind
//! that the grammar finds at fault in the words; or the words fit, and ask for nothing that may be
//! done (`IsFaultIn`). Lack of memory is told as such. What help says no contract tells.
#![tactic(auto)]

mod commands;
mod faults;
mod files;
mod grammar;
mod help;
mod jobs;
mod limits;
mod outputs;
mod reading;
mod role;
mod text;
mod text_list;
mod uses;

pub use files::JobFiles;
pub use jobs::{
    ArgumentsFault, Job, PortJob, RecordFile, Request, SessionJob, SharedRack, TextJob,
};
pub use limits::MAX_CLIENTS;
pub use reading::read_arguments;
pub use role::{DisplayedRole, Role, RoleClash};
pub use text::Text;
pub use text_list::TextList;
pub use uses::{Access, FileUse, file_uses};
