//! The command `draw`.

ghost use Rattle.std.specs.Prelude.{◌≡◌, ◌≢◌, ℕ, ◌+◌, IfOk, IfErr, IfSome, length, string_bytes};
ghost use Rattle.batch.specs.ShapeView.{widest};
ghost use Rattle.batch.specs.Text.{IsNumber};
ghost use Rattle.schedule_picture.specs.declared.shown.ShownSettings.{ShownSettings};
ghost use Rattle.schedule_picture.specs.declared.verdict.Verdict.{Verdict};
ghost use Rattle.schedule_picture.specs.Picture.{picture_of};
ghost use Rattle.schedule_picture.specs.Verdicts.{IsVerdict};
ghost use Rattle.refusals.specs.declared.refusal.Refusal.TheVariants.{Settings, NoSetting};
ghost use Rattle.refusals.specs.declared.refusal.Refusal.TheVariants.{NoMemory};
ghost use Rattle.plan_answers.specs.Drawings.{IsInOrder, AreWanted, IsBadSettingsText, AreShown};
ghost use Rattle.plan_answers.specs.Drawings.{IsOutside, IsDrawing, IsFirstUndrawn, IsDrawn};
ghost use Rattle.plan_answers.specs.Lent.{bytes_of};

use crate::answer::Answer;
use crate::schedule_texts::ScheduleTexts;
use crate::setting_range::SettingRange;
use batch::Shape;
use refusals::Refusal;
use schedule_picture::{ShownSettings, draw};
use std::alloc::{AllocError, Global};

/// The range of a text, where there is one.
fn read_range(text: Option<&[u8]>) -> Result<Option<SettingRange>, Refusal>
    ensures some { IfOk result (AreWanted (bytes_of text.entry)) }
    ensures bad { IfErr result (λ refusal.
        (refusal ≡ Settings) × IsBadSettingsText (bytes_of text.entry)) }
{
    match text {
        None => Ok(None),
        Some(text) => match SettingRange::read(text) {
            Some(range) => Ok(Some(range)),
            None => Err(Refusal::Settings),
        },
    }
}

/// The settings to draw of so many: those of the range, or all where there is none.
fn shown_of(range: Option<SettingRange>, settings: usize) -> Result<ShownSettings, Refusal>
    requires { IfSome range IsInOrder }
    ensures some { IfOk result (AreShown range settings) }
    ensures outside { IfErr result (λ refusal.
        (k : ℕ) × (refusal ≡ NoSetting k) × IsOutside range settings k) }
{
    match range {
        None => Ok(ShownSettings {
            first: 0,
            count: settings,
        }),
        Some(range) => {
            if range.last >= settings {
                return Err(Refusal::NoSetting(range.first.max(settings)));
            }
            Ok(ShownSettings {
                first: range.first,
                count: range.last - range.first + 1,
            })
        }
    }
}

/// The picture of the settings of the range, or of all.
fn draw_range(
    alloc: Global,
    texts: &ScheduleTexts,
    range: Option<SettingRange>,
) -> Result<String, Refusal>
    requires settings { IsNumber (length texts.now.schedule) }
    requires range { IfSome range IsInOrder }
    ensures drawn { IfOk result (λ text. (verdict : Verdict) × (shown : ShownSettings)
        × IsVerdict texts.now.batch texts.now.schedule texts.now.certificate verdict
        × AreShown range (length texts.now.schedule) shown
        × (string_bytes text ≡ picture_of texts.now.batch texts.now.schedule verdict shown)) }
    ensures outside { IfErr result (λ refusal. refusal ≢ NoMemory → (k : ℕ)
        × (refusal ≡ NoSetting k) × IsOutside range (length texts.now.schedule) k) }
{
    let schedule = texts.schedule();
    let shown = shown_of(range, schedule.settings())?;
    let verdict = texts.verdict(alloc)?;
    Ok(draw(alloc, texts.batch(), schedule, verdict, shown)?)
}

/// The picture that is asked for, or what is first wrong.
fn picture(
    alloc: Global,
    batch: &[u8],
    schedule: &[u8],
    settings: Option<&[u8]>,
) -> Result<String, Refusal>
    ensures drawn { IfOk result (λ text.
        IsDrawing widest batch.now schedule.now (bytes_of settings.entry) (string_bytes text)) }
    ensures wrong { IfErr result (λ refusal. refusal ≢ NoMemory
        → IsFirstUndrawn widest batch.now schedule.now (bytes_of settings.entry) refusal) }
{
    let range = read_range(settings)?;
    let texts = ScheduleTexts::read(alloc, Shape::WIDEST, batch, schedule)?;
    draw_range(alloc, &texts, range)
}

/// The answer of `exchange draw`: the picture of the schedule that the schedule text says, of the
/// batch that the batch text denotes, as the text of an SVG file; or the refusal of what is first
/// wrong. Where a range `A..B` is given, the picture has the columns of these settings alone.
///
/// Any schedule of the batch is drawn, whether it is shortest or not, and whether its text has a
/// certificate or not: the picture says which. The text of the range is looked at first, then the
/// other texts, and then whether there are all settings of the range. Takes time that grows with
/// the lengths of the texts and of the picture's.
pub fn answer_draw(
    alloc: Global,
    batch: &[u8],
    schedule: &[u8],
    settings: Option<&[u8]>,
) -> Result<Answer, AllocError>
    ensures { IfOk result (IsDrawn widest batch.now schedule.now (bytes_of settings.entry)) }
{
    match picture(alloc, batch, schedule, settings) {
        Ok(text) => Ok(Answer::done(text.into_bytes())),
        Err(refusal) => Answer::refused(alloc, refusal),
    }
}
