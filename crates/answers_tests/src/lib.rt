//! The tests of `drive_answers`, of `session_answers` and of `command_words` that rows can't take
//! over: a drive over a stream, what words say of workers and of schedules, how the end of a
//! session is framed, a host whose clients' bytes are known, and the rack that sessions leave.
#![tactic(auto)]

#[cfg(test)]
mod tests;
