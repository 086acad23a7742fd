//! How often the switch changes over a schedule.

ghost use Rattle.std.specs.Prelude.{IfOk};
ghost use Rattle.batch.specs.ShapeView.{widest};
ghost use Rattle.plan_answers.specs.Counting.{IsCounted};

use crate::answer::Answer;
use crate::schedule_texts::ScheduleTexts;
use batch::Shape;
use std::alloc::{AllocError, Global};

/// How often the schedule that the schedule text says changes the switch, of the batch that the
/// batch text denotes, and how often it is shown that one with as many settings has to: a line
/// `changes C least L`; or the refusal of what is first wrong.
///
/// L is as good as prices of the links show it where the schedule has the fewest settings, and else
/// as one link does. No certificate is needed. The texts are looked at as by
/// [`answer_draw`](crate::answer_draw). Takes time that grows with the lengths of the texts.
pub fn answer_changes(alloc: Global, batch: &[u8], schedule: &[u8]) -> Result<Answer, AllocError>
    ensures { IfOk result (IsCounted widest batch.now schedule.now) }
{
    match ScheduleTexts::read(alloc, Shape::WIDEST, batch, schedule) {
        Ok(texts) => {
            let verdict = texts.verdict(alloc)?;
            let (changes, least) = (verdict.changes, verdict.least);
            let line = format!(in alloc; "changes {changes} least {least}\n")?;
            Ok(Answer::done(line.into_bytes()))
        }
        Err(refusal) => Answer::refused(alloc, refusal),
    }
}
