//! Tests of `batch_book` and `client_session`.

mod book;
mod office;
mod sessions;
