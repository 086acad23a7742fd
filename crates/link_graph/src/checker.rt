ghost use Rattle.std.specs.Prelude.{◌≡◌, ◌<◌, [], length, replicate, false, IfOk, IfErr, OnOk};
ghost use Rattle.batch.specs.Batches.{IsBatch};
ghost use Rattle.link_graph.specs.declared.check_fault.CheckFault.TheVariants.{NoMemory};
ghost use Rattle.link_graph.specs.Schedules.{lists_of, IsScheduleOf};
ghost use Rattle.link_graph.specs.Certificates.{IsShortest, IsCertificate, IsCertified};
ghost use Rattle.link_graph.specs.Checks.{AreKnown, IsWantOfMemory, IsFirstUnlessMemory};
ghost use Rattle.link_graph.specs.Checks.{IsSettingsFault, CertifiesCount, IsNamingFault};

use crate::certificate::Certificate;
use crate::check_fault::CheckFault;
use crate::checking;
use crate::schedule::Schedule;
use batch::Batch;
use std::alloc::{AllocError, Global};

/// The schedule of a batch is shortest.
#[derive(Clone, Copy)]
pub struct Shortest {
    /// How many settings it has: no schedule of the batch has fewer.
    pub settings: usize,
}

/// So many marks, none of them set. No memory is asked for where that is none.
fn unmarked(alloc: Global, count: usize) -> Result<Vec<bool>, AllocError>
    ensures marks { IfOk result (λ marks. marks.items ≡ replicate count false) }
    ensures memory { IfErr result (λ _. 0 < count) }
{
    if count == 0 {
        return Ok(Vec::new(alloc));
    }
    vec![in alloc; false; count]
}

/// Whether the lists, whose numbers are all those of transfers, are a schedule of the batch. The
/// marks are one for each transfer.
fn check_settings(batch: &Batch, lists: &[Vec<usize>], marks: &mut [bool]) -> Result<(), CheckFault>
    requires known { AreKnown batch.now (lists_of lists.now) }
    requires marks { marks.old ≡ replicate (length batch.now) false }
    requires batch { IsBatch batch.now }
    ensures ok { OnOk result (IsScheduleOf batch.now (lists_of lists.now)) }
    ensures err { IfErr result (IsSettingsFault batch.now (lists_of lists.now)) }
{
    if let Some(t) = checking::first_repeated(marks, lists) {
        return Err(CheckFault::Repeated(t));
    }
    if let Some(t) = checking::first_unmarked(marks) {
        return Err(CheckFault::Missing(t));
    }
    if let Some((setting, link)) = checking::first_clash(batch, lists) {
        return Err(CheckFault::Clash(setting, link));
    }
    Ok(())
}

/// Whether the certificate shows that a schedule of so many settings is shortest. The marks are one
/// for each transfer.
fn check_certificate(
    batch: &Batch,
    settings: usize,
    certificate: &Certificate,
    marks: &mut [bool],
) -> Result<Shortest, CheckFault>
    requires { length marks.old ≡ length batch.now }
    ensures ok { OnOk result (CertifiesCount batch.now settings certificate.now) }
    ensures settings { IfOk result (λ shortest. shortest.settings ≡ settings) }
    ensures err { IfErr result (IsNamingFault batch.now settings certificate.now) }
{
    let transfers = certificate.transfers();
    if let Some(t) = checking::first_stray(batch, certificate.link(), transfers) {
        return Err(CheckFault::WrongLink(t));
    }
    marks.fill(false);
    if let Some(t) = checking::mark(marks, transfers) {
        return Err(CheckFault::CertificateRepeats(t));
    }
    if settings != transfers.len() {
        return Err(CheckFault::NotTight(settings, transfers.len()));
    }
    Ok(Shortest { settings })
}

/// Whether this is a schedule of the batch, and the certificate shows that none is shorter.
///
/// Answers what is first wrong, in the order in which [`CheckFault`] lists the faults. Memory is
/// asked for once, one mark for each transfer, and not before all numbers are known; an empty batch
/// needs none. Takes time that grows with the numbers of transfers, of settings and of all that
/// stands in the settings and in the certificate.
pub fn check_schedule(
    alloc: Global,
    batch: &Batch,
    schedule: &Schedule,
    certificate: &Certificate,
) -> Result<Shortest, CheckFault>
    ensures schedule { OnOk result (IsScheduleOf batch.now schedule.now) }
    ensures certificate { OnOk result (IsCertificate batch.now schedule.now certificate.now) }
    ensures shortest { OnOk result (IsShortest batch.now schedule.now) }
    ensures settings { IfOk result (λ shortest. shortest.settings ≡ length schedule.now) }
    ensures fault { IfErr result (IsFirstUnlessMemory batch.now schedule.now certificate.now) }
    ensures accepted { IsCertified batch.now schedule.now certificate.now →
        IfErr result IsWantOfMemory }
    ensures memory { IfErr result (λ fault. fault ≡ NoMemory
        → AreKnown batch.now schedule.now × (0 < length batch.now)) }
{
    let count = batch.len();
    let lists = schedule.lists();
    if let Some(t) = checking::first_unknown(lists, count) {
        return Err(CheckFault::Unknown(t));
    }
    let mut marks = unmarked(alloc, count)?;
    check_settings(batch, lists, &mut marks)?;
    check_certificate(batch, lists.len(), certificate, &mut marks)
}
