//! The text of a book's history: an entry for each call, with its session, its reply and a sum, but
//! without plans. A record is such a text after a head; it may have been cut off.
//!
//! [`write_record`] makes a whole record (`whole_record` of `specs/Heads.antt`); [`head_text`],
//! [`push_history`] and [`last_lines`] make its parts. [`read_head`], [`read_prefix`], [`is_end`]
//! and [`read_entry`] read them, exactly where they are. Each front of the text of entries is that
//! of whole entries and a torn rest (`laws::fronts`).
//!
//! A history may be a stream ([`attach_stream`], [`detach_stream`]): the texts of entries wait in
//! memory until a flush hands them to a writer. The writer gets all flushed entries, and nothing
//! else; after a flush that failed, maybe a front of the others too (`IsWritten` of
//! `specs/Streams.antt`).
//!
//! Who replays records, or keeps them in files, calls this crate: `record_replay` and
//! `recorded_sessions`. Others call these two.
#![tactic(auto)]

mod head;
pub mod laws;
mod naming;
mod pending_text;
mod reading;
mod record_prefix;
mod stream_history;
mod stream_recorder;
mod streaming;
mod sum;
mod whole;
mod writing;

pub use head::{head_text, rack_line, read_head, session_limit};
pub use naming::StreamName;
pub use pending_text::PendingText;
pub use reading::read_entry;
pub use record_prefix::{RecordPrefix, is_end, is_torn, last_lines, read_prefix};
pub use stream_history::StreamHistory;
pub use stream_recorder::StreamRecorder;
pub use streaming::{attach_stream, detach_stream};
pub use sum::sum_of;
pub use whole::write_record;
pub use writing::{id_of, push_asked, push_history, push_logged, push_reply};
