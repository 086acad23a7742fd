/// The entries that wait couldn't be put where they belong, or some couldn't be before.
#[derive(Clone, Copy)]
pub struct Unrecorded;
