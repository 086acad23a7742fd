//! What rows can't show: a drive over a stream, what words say of workers and of schedules, how
//! ends are framed, a host whose clients' bytes are known, records that are cut or break, sessions
//! over such, and the rack that sessions leave. The folder `rows` at the repository's top has what
//! commands print.

mod books;
mod driving;
mod hosting;
mod racks;
mod records;
mod serving;
mod talking;
mod words;
