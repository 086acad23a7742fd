use crate::output_mismatch::OutputMismatch;
use plan_answers::Answer;

/// How a drive ended.
#[derive(Drop)]
pub struct DriveEnd {
    /// What is printed after what was told.
    pub answer: Answer,
    /// What was seen of an output that disagrees, where one does.
    pub sight: Option<OutputMismatch>,
}
