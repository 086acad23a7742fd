//! Whether the files that a job names may be those that it reads and writes, and its clients have
//! names.

ghost use Rattle.std.specs.Prelude.{◌↔◌, All, IfNone, IfSome, IsTrue, MatchOption, slice_get};
ghost use Rattle.command_words.specs.Jobs.{HaveNames, HaveTwoNames, IsClientName, MayHaveName};
ghost use Rattle.command_words.specs.Jobs.{clients_of};
ghost use Rattle.command_words.specs.Names.{IsMisnamed};

use crate::jobs::Job;
use crate::role::RoleClash;
use crate::text::Text;
use crate::uses::{Access, FileUse};
use refusal_notes::NamedText;
use std::fmt::{self, Display, Formatter, Write};

/// Why files may not have their names.
#[derive(Clone, Copy)]
pub(crate) enum NameFault<'a> {
    /// This one is written, and named `-`.
    Input(&'a FileUse),
    /// These two have one name, and have to have two.
    OneName(&'a FileUse, &'a FileUse),
}

/// Whether the file isn't both written and named `-`.
fn may_have_name(file: &FileUse) -> bool
    ensures { IsTrue result ↔ MayHaveName file.now }
{
    !(file.access.excludes(Access::Read) && file.name.is_input())
}

/// Whether two files have two names, where they have to be two.
fn have_two_names(one: &FileUse, other: &FileUse) -> bool
    ensures { IsTrue result ↔ HaveTwoNames one.now other.now }
{
    let are_two = one.access.excludes(other.access) || one.name.is_input();
    !(are_two && one.name.as_str() == other.name.as_str())
}

/// The place of the first of these files that has to have another name than this one, and hasn't.
fn namesake(file: &FileUse, others: &[FileUse]) -> Option<usize>
    ensures some { IfSome result (λ k. MatchOption (slice_get others.now k) ⊥
        (λ other. HaveTwoNames other file.now → ⊥)) }
    ensures none { IfNone result (All (λ other. HaveTwoNames other file.now) others.now) }
{
    for k in 0..others.len() {
        if !have_two_names(&others[k], file) {
            return Some(k);
        }
    }
    None
}

/// The first of these files that may not have its name: what is written may not be `-`, nor be
/// read, or written too, and standard input is read once.
pub(crate) fn first_misnamed(files: &[FileUse]) -> Option<NameFault<'_>>
    ensures some { IfSome result (IsMisnamed files.now) }
    ensures none { IfNone result (HaveNames files.now) }
{
    for i in 0..files.len() {
        if !may_have_name(&files[i]) {
            return Some(NameFault::Input(&files[i]));
        }
        if let Some(k) = namesake(&files[i], &files[..i]) {
            return Some(NameFault::OneName(&files[k], &files[i]));
        }
    }
    None
}

impl<'a> Display for NameFault<'a> {
    fn fmt<W: Write>(&self, f: &mut Formatter<W>) -> fmt::Result {
        match *self {
            NameFault::Input(file) => {
                let role = file.role();
                write!(f, "`-` is standard input, which can't be {role}")
            }
            NameFault::OneName(one, other) => {
                let (first, later) = (one.role(), other.role());
                let clash = RoleClash { first, later };
                if other.name.is_input() {
                    return write!(f, "`-` is standard input, which is read once: {clash}");
                }
                write!(f, "{}: {clash}", NamedText::only(other.name.as_str()))
            }
        }
    }
}

/// Whether a client may have this name: it isn't empty, and stands in one line.
fn is_client_name(name: &Text) -> bool
    ensures { IsTrue result ↔ IsClientName name.now }
{
    let bytes = name.as_str().as_bytes();
    !bytes.is_empty() && !bytes.contains(&b'\n')
}

/// Whether clients may have these names.
fn are_client_names(names: &[Text]) -> bool
    ensures { IsTrue result ↔ All IsClientName names.now }
{
    names.iter().all(is_client_name)
}

/// Whether each of a job's clients has a name that it may have.
pub(crate) fn names_clients(job: &Job) -> bool
    ensures { IsTrue result ↔ All IsClientName (clients_of job.now) }
{
    match job {
        Job::Sessions { job, .. } => are_client_names(job.clients()),
        Job::Texts(_) | Job::Ports(_) => true,
    }
}
