//! The whole picture.

ghost use Rattle.std.specs.Prelude.{◌≡◌, ◌<◌, ◌≤◌, ◌+◌, All, IfOk, OnOk, length, string_bytes};
ghost use Rattle.batch.specs.Text.{IsNumber};
ghost use Rattle.link_graph.specs.Schedules.{IsScheduleOf};
ghost use Rattle.schedule_picture.specs.Elements.{Adds};
ghost use Rattle.schedule_picture.specs.Picture.{bound_words, changes_words, busiest_words};
ghost use Rattle.schedule_picture.specs.Picture.{length_words, heading_text, standing_words};
ghost use Rattle.schedule_picture.specs.Picture.{shown_words, note_text, size_text, ground_text};
ghost use Rattle.schedule_picture.specs.Picture.{title_part, caption_part, opening_text, rows_text};
ghost use Rattle.schedule_picture.specs.Picture.{setting_text, columns_text, closing_text};
ghost use Rattle.schedule_picture.specs.Picture.{picture_of};

use crate::cells::push_column;
use crate::elements::push_link;
use crate::layout::width;
use crate::rows::Rows;
use crate::rows_text::{push_headings, push_row};
use crate::rules::{changes_at, push_rule};
use crate::shown::ShownSettings;
use crate::style::{EXPLAINED, STYLE};
use crate::verdict::{CertificateStatus, Verdict};
use batch::{Batch, MAX_MODULES};
use link_graph::{Link, Schedule};
use std::alloc::{AllocError, Global};

/// Puts at the end of the text whether so many settings are the fewest, or how many are enough.
fn push_length(text: &mut String, settings: usize, fewest: usize) -> Result<(), AllocError>
    ensures { OnOk result (Adds text.old text.new (length_words settings fewest)) }
{
    if settings == fewest {
        return text.push_str(", the fewest");
    }
    if fewest == 1 {
        return text.push_str(", where 1 is enough");
    }
    write!(text, ", where {fewest} are enough")
}

/// Puts the heading at the end of the text: how many transfers and settings there are, and whether
/// fewer settings are enough.
fn push_heading(
    text: &mut String,
    transfers: usize,
    settings: usize,
    fewest: usize,
) -> Result<(), AllocError>
    ensures { OnOk result (Adds text.old text.new (heading_text transfers settings fewest)) }
{
    write!(text, "transfers {transfers}, settings {settings}")?;
    push_length(text, settings, fewest)
}

/// Puts at the end of the text what is shown of how often a schedule changes the switch.
fn push_bound(
    text: &mut String,
    changes: usize,
    partners: usize,
    least: usize,
) -> Result<(), AllocError>
    ensures { OnOk result (Adds text.old text.new (bound_words changes partners least)) }
{
    if changes == partners {
        return text.push_str(", the fewest");
    }
    if changes == least {
        return text.push_str(", the fewest with so few settings");
    }
    write!(text, ", at least {least}")
}

/// Puts at the end of the text how often the schedule changes the switch, and what is shown of
/// that.
fn push_changes(
    text: &mut String,
    changes: usize,
    partners: usize,
    least: usize,
) -> Result<(), AllocError>
    ensures { OnOk result (Adds text.old text.new (changes_words changes partners least)) }
{
    write!(text, "changes {changes}")?;
    push_bound(text, changes, partners, least)
}

/// Puts the name of the busiest link at the end of the text.
fn push_busiest(text: &mut String, busiest: Option<Link>) -> Result<(), AllocError>
    ensures { OnOk result (Adds text.old text.new (busiest_words busiest)) }
{
    let Some(link) = busiest else {
        return text.push_str("busiest none");
    };
    text.push_str("busiest ")?;
    push_link(text, link)
}

/// How a certificate stands, in words.
fn standing_word(standing: CertificateStatus) -> &'static str
    ensures { result.now ≡ standing_words standing }
{
    match standing {
        CertificateStatus::Certified => ", certified",
        CertificateStatus::Wrong => ", not certified",
        CertificateStatus::Missing => ", no certificate",
    }
}

/// Puts at the end of the text which settings are shown, where these aren't all.
fn push_shown(text: &mut String, settings: usize, shown: ShownSettings) -> Result<(), AllocError>
    requires { IsNumber (shown.first + shown.count) }
    ensures { OnOk result (Adds text.old text.new (shown_words settings shown)) }
{
    if shown.count == settings {
        return Ok(());
    }
    let first = shown.first;
    if shown.count == 1 {
        return write!(text, ", setting {first} shown");
    }
    let last = (first + shown.count).saturating_sub(1);
    write!(text, ", shown {first} to {last}")
}

/// Puts at the end of the text what stands below the heading: how often the switch changes, the
/// busiest link, how the certificate stands, and which settings are shown.
fn push_note(
    text: &mut String,
    settings: usize,
    verdict: Verdict,
    shown: ShownSettings,
) -> Result<(), AllocError>
    requires { IsNumber (shown.first + shown.count) }
    ensures { OnOk result (Adds text.old text.new (note_text settings verdict shown)) }
{
    push_changes(text, verdict.changes, verdict.partners, verdict.least)?;
    text.push_str(", ")?;
    push_busiest(text, verdict.busiest)?;
    text.push_str(standing_word(verdict.standing))?;
    push_shown(text, settings, shown)
}

/// Puts the size of the picture at the end of the text, and the beginning of its title.
fn push_size(text: &mut String, width: usize, height: usize) -> Result<(), AllocError>
    ensures { OnOk result (Adds text.old text.new (size_text width height)) }
{
    write!(
        text,
        "<svg xmlns='http://www.w3.org/2000/svg' width='{width}' height='{height}' \
        viewBox='0 0 {width} {height}'>\n<title>"
    )
}

/// Puts the white ground at the end of the text, and the beginning of the heading.
fn push_ground(text: &mut String, width: usize, height: usize) -> Result<(), AllocError>
    ensures { OnOk result (Adds text.old text.new (ground_text width height)) }
{
    write!(
        text,
        "<rect class='paper' width='{width}' height='{height}'/>\n\
        <text class='heading' x='16' y='36'>"
    )
}

/// Puts the beginning of the picture at the end of the text: its size, and its title.
fn push_title(
    text: &mut String,
    rows: &Rows<'_>,
    settings: usize,
    verdict: Verdict,
    shown: ShownSettings,
) -> Result<(), AllocError>
    requires { IsNumber (shown.first + shown.count) }
    ensures { OnOk result (Adds text.old text.new (title_part rows.now settings verdict shown)) }
{
    push_size(text, width(shown.count), rows.height(shown.count))?;
    push_heading(text, rows.transfers().len(), settings, verdict.fewest)?;
    text.push_str(", ")?;
    push_note(text, settings, verdict, shown)?;
    text.push_str("</title>\n")
}

/// Puts the ground of the picture at the end of the text, and the heading and the note on it.
fn push_caption(
    text: &mut String,
    rows: &Rows<'_>,
    settings: usize,
    verdict: Verdict,
    shown: ShownSettings,
) -> Result<(), AllocError>
    requires { IsNumber (shown.first + shown.count) }
    ensures { OnOk result (Adds text.old text.new (caption_part rows.now settings verdict shown)) }
{
    push_ground(text, width(shown.count), rows.height(shown.count))?;
    push_heading(text, rows.transfers().len(), settings, verdict.fewest)?;
    text.push_str("</text>\n<text class='note' x='16' y='58'>")?;
    push_note(text, settings, verdict, shown)?;
    text.push_str("</text>\n")
}

/// Puts what stands before the rows at the end of the text.
fn push_opening(
    text: &mut String,
    rows: &Rows<'_>,
    settings: usize,
    verdict: Verdict,
    shown: ShownSettings,
) -> Result<(), AllocError>
    requires { IsNumber (shown.first + shown.count) }
    ensures { OnOk result (Adds text.old text.new (opening_text rows.now settings verdict shown)) }
{
    push_title(text, rows, settings, verdict, shown)?;
    text.push_str(STYLE)?;
    push_caption(text, rows, settings, verdict, shown)
}

/// Puts the rows of all modules that take part at the end of the text, with so many columns.
fn push_rows(
    text: &mut String,
    rows: &Rows<'_>,
    columns: usize,
    busiest: Option<Link>,
) -> Result<(), AllocError>
    requires { IsNumber columns }
    ensures { OnOk result (Adds text.old text.new (rows_text rows.now columns busiest)) }
{
    for module in 0..MAX_MODULES {
        push_row(text, rows, columns, busiest, module)?;
    }
    Ok(())
}

/// Puts a setting at the end of the text: its column, with a rule before it where the switch
/// changes.
fn push_setting(
    text: &mut String,
    rows: &Rows<'_>,
    schedule: &Schedule,
    column: usize,
    k: usize,
) -> Result<(), AllocError>
    requires column { IsNumber column }
    requires setting { k < length schedule.now }
    requires known { All (All (λ t. t < length rows.now)) schedule.now }
    ensures { OnOk result
        (Adds text.old text.new (setting_text rows.now schedule.now column k)) }
{
    let Some(numbers) = schedule.setting(k) else {
        unreachable!();
    };
    let changes = changes_at(rows.transfers(), schedule, k);
    push_rule(text, rows, column, changes)?;
    push_column(text, rows, column, k, numbers)
}

/// Puts the columns of the settings that are shown at the end of the text.
fn push_columns(
    text: &mut String,
    rows: &Rows<'_>,
    schedule: &Schedule,
    shown: ShownSettings,
) -> Result<(), AllocError>
    requires settings { IsNumber (length schedule.now) }
    requires shown { shown.first + shown.count ≤ length schedule.now }
    requires known { All (All (λ t. t < length rows.now)) schedule.now }
    ensures { OnOk result (Adds text.old text.new (columns_text rows.now schedule.now shown)) }
{
    for j in 0..shown.count {
        push_setting(text, rows, schedule, j, shown.first + j)?;
    }
    Ok(())
}

/// Puts what stands below the panels of so many columns at the end of the text.
fn push_closing(text: &mut String, rows: &Rows<'_>, columns: usize) -> Result<(), AllocError>
    requires { IsNumber columns }
    ensures { OnOk result (Adds text.old text.new (closing_text rows.now columns)) }
{
    let below = rows.below(columns);
    write!(text, "<g transform='translate(16,{below})'>\n")?;
    text.push_str(EXPLAINED)?;
    text.push_str("</g>\n</svg>\n")
}

/// The picture of some settings of a schedule of the batch: the text of an SVG file.
///
/// The modules that take part in the batch stand in rows, in their order, and the settings that are
/// shown in columns. A transfer of these has two cells in its setting's column: one in the upper
/// half of its initiator's row, for link 0, and one in the lower half of its responder's, for link
/// 3. Each has the number and the colour of the module at the other side, and a title that says the
/// transfer. The half of the busiest link is marked. A dashed rule stands before each column whose
/// setting changes the switch. The title says what the verdict is, and which settings are shown
/// where these aren't all. All numbers are whole. Takes time that grows with the length of the
/// text.
pub fn draw(
    alloc: Global,
    batch: &Batch,
    schedule: &Schedule,
    verdict: Verdict,
    shown: ShownSettings,
) -> Result<String, AllocError>
    requires schedule { IsScheduleOf batch.now schedule.now }
    requires settings { IsNumber (length schedule.now) }
    requires shown { shown.first + shown.count ≤ length schedule.now }
    ensures { IfOk result (λ text. string_bytes text
        ≡ picture_of batch.now schedule.now verdict shown) }
{
    let (rows, settings) = (Rows::of(batch), schedule.settings());
    let mut text = String::new(alloc);
    push_opening(&mut text, &rows, settings, verdict, shown)?;
    push_rows(&mut text, &rows, shown.count, verdict.busiest)?;
    push_headings(&mut text, &rows, shown.count)?;
    push_columns(&mut text, &rows, schedule, shown)?;
    push_closing(&mut text, &rows, shown.count)?;
    Ok(text)
}
