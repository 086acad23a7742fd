//! The parts of a schedule text, read from the left.

ghost use Rattle.std.specs.Prelude.{◌≡◌, ◌≢◌, ℕ, ◌<◌, ◌+◌, ◌^◌, [], ◌∷◌, ◌++◌, All, IfSome, IfNone};
ghost use Rattle.std.specs.Prelude.{IfOk, IfErr, length, Some};
ghost use Rattle.std.specs.Fmt.{decimal};
ghost use Rattle.batch.specs.Text.{IsNumber};
ghost use Rattle.link_graph.specs.Links.{IsInRack};
ghost use Rattle.link_graph.specs.Schedules.{lists_of};
ghost use Rattle.link_graph.specs.Certificates.{IsNaming};
ghost use Rattle.link_graph.specs.ScheduleText.{text_of, text_of_settings, settings_line};
ghost use Rattle.link_graph.specs.ScheduleText.{end_number, module_words, busiest_line, named_line};
ghost use Rattle.link_graph.specs.ScheduleText.{certificate_lines, CanName};
ghost use Rattle.link_graph.specs.ScheduleFaults.{IsLine, IsLineFault, IsFaultBelow, AreCounted};
ghost use Rattle.link_graph.specs.ScheduleFaults.{AreCertified, AreNamed, HasFirstLine};
ghost use Rattle.link_graph.specs.ScheduleFaults.{HasFirstNumber, AreNoNumbers, IsWordWithNumbers};
ghost use Rattle.link_graph.specs.ScheduleFaults.{HasNoFirstEnd, NamesNoLink};

use crate::certificate::Certificate;
use crate::link::{End, Link};
use crate::schedule_fault::ScheduleFault;
use batch::{MAX_MODULES, number_from_digits, position_of};
use std::alloc::Global;

/// The line that the text begins with, without its line feed, and what stands after it.
pub(crate) fn next_line(text: &[u8]) -> Option<(&[u8], &[u8])>
    ensures some { IfSome result (λ x. HasFirstLine text.now x.0.now x.1.now) }
    ensures none { IfNone result (IsLine text.now) }
{
    let at = position_of(text, b'\n')?;
    Some((&text[..at], &text[at + 1..]))
}

/// The number that the words begin with, after a space, and the words after it.
fn next_number(words: &[u8]) -> Option<(usize, &[u8])>
    ensures some { IfSome result (λ x. HasFirstNumber words.now x.0 x.1.now) }
    ensures none { IfNone result (AreNoNumbers words.now) }
{
    let digits = words.strip_prefix(b" ")?;
    let end = position_of(digits, b' ').unwrap_or(digits.len());
    let n = number_from_digits(&digits[..end])?;
    Some((n, &digits[end..]))
}

/// The numbers of line `at`, each with a space before it.
fn numbers_of(alloc: Global, words: &[u8], at: usize) -> Result<Vec<usize>, ScheduleFault>
    ensures ok { IfOk result (λ ts. IsWordWithNumbers [] words.now ts.items) }
    ensures err { IfErr result (λ fault. IsLineFault at [] words.now fault) }
{
    let mut numbers = Vec::new(alloc);
    let mut rest = words;
    while !rest.is_empty() {
        let Some((n, after)) = next_number(rest) else {
            return Err(ScheduleFault::Line(at));
        };
        numbers.push(n)?;
        rest = after;
    }
    Ok(numbers)
}

/// The numbers after the word that line `at` begins with.
fn numbers_after(
    alloc: Global,
    word: &[u8],
    line: &[u8],
    at: usize,
) -> Result<Vec<usize>, ScheduleFault>
    ensures ok { IfOk result (λ ts. IsWordWithNumbers word.now line.now ts.items) }
    ensures err { IfErr result (λ fault. IsLineFault at word.now line.now fault) }
{
    let Some(words) = line.strip_prefix(word) else {
        return Err(ScheduleFault::Line(at));
    };
    numbers_of(alloc, words, at)
}

/// How many settings the first line announces.
pub(crate) fn settings_count(line: &[u8]) -> Option<usize>
    ensures some { IfSome result (λ n. IsNumber n × (line.now ≡ settings_line n)) }
    ensures none { IfNone result ((n : ℕ) → IsNumber n → line.now ≢ settings_line n) }
{
    number_from_digits(line.strip_prefix(b"settings ")?)
}

/// The lists of as many settings as counted, and what stands after their lines.
pub(crate) fn settings(
    alloc: Global,
    text: &[u8],
    count: usize,
) -> Result<(Vec<Vec<usize>>, &[u8]), ScheduleFault>
    requires { IsNumber count }
    ensures counted { IfOk result (λ x. length x.0.items ≡ count) }
    ensures numbers { IfOk result (λ x. All (All IsNumber) (lists_of x.0.items)) }
    ensures text { IfOk result (λ x. text.now ≡ text_of_settings (lists_of x.0.items) ++ x.1.now) }
    ensures err { IfErr result (λ fault. IsFaultBelow 1 (AreCounted count) text.now fault) }
{
    let mut lists = Vec::new(alloc);
    let mut rest = text;
    for k in 0..count {
        let Some((line, after)) = next_line(rest) else {
            return Err(ScheduleFault::Line(k + 2));
        };
        lists.push(numbers_after(alloc, b"setting", line, k + 2)?)?;
        rest = after;
    }
    Ok((lists, rest))
}

/// The end of a link that these bytes begin with, and what stands after it.
fn link_end(bytes: &[u8]) -> Option<(End, &[u8])>
    ensures some { IfSome result (λ x. bytes.now ≡ decimal (end_number x.0) ++ x.1.now) }
    ensures none { IfNone result (HasNoFirstEnd bytes.now) }
{
    if let Some(rest) = bytes.strip_prefix(b"0") {
        return Some((End::Zero, rest));
    }
    let rest = bytes.strip_prefix(b"3")?;
    Some((End::Three, rest))
}

/// The number of a module, after its word.
fn link_module(bytes: &[u8]) -> Option<usize>
    ensures some { IfSome result (λ m. (m < MAX_MODULES) × (bytes.now ≡ module_words m)) }
    ensures none { IfNone result ((m : ℕ) → m < MAX_MODULES → bytes.now ≢ module_words m) }
{
    let module = number_from_digits(bytes.strip_prefix(b" module ")?)?;
    if module >= MAX_MODULES {
        return None;
    }
    Some(module)
}

/// The link that a certificate part names in its first line.
fn busiest_link(line: &[u8]) -> Option<Link>
    ensures some { IfSome result (λ link. IsInRack link × (line.now ≡ busiest_line link)) }
    ensures none { IfNone result (NamesNoLink line.now) }
{
    let (end, rest) = link_end(line.strip_prefix(b"busiest link ")?)?;
    let module = link_module(rest)?;
    Some(Link { end, module })
}

/// The certificate that names this link and the transfers of the last line, above which so many
/// lines stand.
fn link_certificate(
    alloc: Global,
    link: Link,
    text: &[u8],
    above: usize,
) -> Result<Certificate, ScheduleFault>
    requires { above + 2 < 2 ^ 64 }
    ensures link { IfOk result (λ certificate. certificate.link ≡ Some link) }
    ensures naming { IfOk result (λ certificate. IsNaming certificate) }
    ensures numbers { IfOk result (λ certificate. All IsNumber certificate.transfers) }
    ensures text { IfOk result (λ named. text.now ≡ text_of (named_line named.transfers ∷ [])) }
    ensures err { IfErr result (λ fault. IsFaultBelow above AreNamed text.now fault) }
{
    let Some((line, rest)) = next_line(text) else {
        return Err(ScheduleFault::Line(above + 1));
    };
    let transfers = numbers_after(alloc, b"named", line, above + 1)?;
    let Some(certificate) = Certificate::of(link, transfers) else {
        return Err(ScheduleFault::Line(above + 1));
    };
    if !rest.is_empty() {
        return Err(ScheduleFault::Line(above + 2));
    }
    Ok(certificate)
}

/// The certificate part, where there is one. It ends the text, and so many lines stand above it.
pub(crate) fn certificate(
    alloc: Global,
    text: &[u8],
    above: usize,
) -> Result<Option<Certificate>, ScheduleFault>
    requires { above + 3 < 2 ^ 64 }
    ensures names { IfOk result (λ certificate. CanName certificate) }
    ensures naming { IfOk result (λ certificate. IfSome certificate IsNaming) }
    ensures text { IfOk result (λ certificate. text.now ≡ text_of (certificate_lines certificate)) }
    ensures err { IfErr result (λ fault. IsFaultBelow above AreCertified text.now fault) }
{
    if text.is_empty() {
        return Ok(None);
    }
    let Some((line, rest)) = next_line(text) else {
        return Err(ScheduleFault::Line(above + 1));
    };
    if line == b"busiest none".as_slice() {
        if !rest.is_empty() {
            return Err(ScheduleFault::Line(above + 2));
        }
        return Ok(Some(Certificate::none()));
    }
    let Some(link) = busiest_link(line) else {
        return Err(ScheduleFault::Line(above + 1));
    };
    let certificate = link_certificate(alloc, link, rest, above + 1)?;
    Ok(Some(certificate))
}
