//! Calls and readings of an exchange: what a seat is answered, readings during runs, seats in
//! threads, what is settled beside a run, two workers, and named sizes and texts.

mod days;
mod exchange;
mod readings;
mod sizes;
mod syncs;
mod ways;
