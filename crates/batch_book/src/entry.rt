use crate::logged::{LoggedCall, LoggedReply};

/// What a session asked, and what it was answered.
pub struct Entry {
    /// The number of the session.
    pub session: usize,
    /// What it asked.
    pub call: LoggedCall,
    /// What it was answered.
    pub reply: LoggedReply,
}

// Said once, so that no function that lets go of one has to say it again.
impl Drop for Entry {
    #[inline(always)]
    fn drop(self) {
        let Entry {
            session: _,
            call: _,
            reply: _,
        } = self;
    }
}
