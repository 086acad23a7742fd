//! How many lines list an entry.

/// What a text lists.
#[derive(Clone, Copy)]
pub enum Listing {
    /// A batch lists transfers.
    Transfers,
    /// A text of moves lists moves.
    Moves,
    /// A schedule lists settings.
    Settings,
    /// A wiring lists modules.
    Modules,
}

impl Listing {
    /// What the line of an entry is called.
    pub(crate) fn line_name(self) -> &'static str {
        match self {
            Listing::Transfers => "transfer line",
            Listing::Moves => "move line",
            Listing::Settings => "setting line",
            Listing::Modules => "module line",
        }
    }
}

/// Whether a line begins as that of an entry.
pub(crate) fn is_listed(listing: Listing, line: &[u8]) -> bool {
    match listing {
        Listing::Transfers => line.starts_with(b"push ") || line.starts_with(b"pull "),
        Listing::Moves => line.starts_with(b"move "),
        Listing::Modules => line.starts_with(b"module "),
        Listing::Settings => { line.starts_with(b"setting ") || line == b"setting".as_slice() }
    }
}

/// How many lines of the text begin as that of an entry.
pub(crate) fn listed(listing: Listing, text: &[u8]) -> usize {
    text.split(|b| *b == b'\n')
        .filter(|line| is_listed(listing, line))
        .count()
}
