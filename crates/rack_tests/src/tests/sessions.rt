//! Reply lines that no program prints, and sessions: over readers and writers that fail, that
//! record when they are called, or that wait for one another, and over ports and wires that fail or
//! lie.

mod beside;
mod cuts;
mod ends;
mod groups;
mod order;
mod outside;
mod replies;
mod rows;
mod served;
mod streams;
mod talks;
