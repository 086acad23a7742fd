//! Where a schedule of a batch comes from.

/// How a batch is planned: either way no schedule has fewer settings.
#[derive(Clone, Copy)]
pub enum Planning {
    /// Without regard to how often the schedule changes the switch.
    Plain,
    /// So that the schedule seldom changes the switch.
    Steady,
}

/// Where a schedule of a batch comes from.
#[derive(Drop)]
pub enum ScheduleSource<T> {
    /// The batch is planned so.
    Plan(Planning),
    /// A text says it: this one, or that of this file.
    Text(T),
}
