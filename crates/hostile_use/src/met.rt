/// How a call ended that may want memory, compared with the worked row that is named for it.
#[derive(Clone, Copy)]
pub enum Met {
    /// It answered what the row says, and left what was lent as the row says.
    Row,
    /// It answered want of memory in its own form, and what was lent or handed back is as before,
    /// word for word.
    NoMemory,
    /// It answered something else, or left something else.
    Other,
}

impl Met {
    /// What was met, by whether the answer is the row's.
    pub fn row_if(is_the_rows: bool) -> Met {
        if is_the_rows { Met::Row } else { Met::Other }
    }

    /// What was met, by whether the answer is want of memory and leaves all as before.
    pub fn no_memory_if(is_as_before: bool) -> Met {
        if is_as_before {
            Met::NoMemory
        } else {
            Met::Other
        }
    }

    /// The words that tell it.
    pub fn words(self) -> &'static str {
        match self {
            Met::Row => "row",
            Met::NoMemory => "no memory",
            Met::Other => "other",
        }
    }
}
