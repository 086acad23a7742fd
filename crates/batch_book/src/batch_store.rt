//! The batches and the memories of a book, and one call at a time.

ghost use Rattle.std.specs.Prelude.{◌≡◌, ◌<◌, ◌+◌, nat_eq, IfOk, IfErr, OnErr, Some, None};
ghost use Rattle.std.specs.Option.{option_copied};
ghost use Rattle.std.specs.Map.{lookup};
ghost use Rattle.setting_runner.specs.Plants.{LeavesPlant};
ghost use Rattle.setting_runner.specs.Runs.{TellsOutcome};
ghost use Rattle.batch_book.specs.History.{has_numbers};
ghost use Rattle.batch_book.specs.BatchStore.{EndsRun, batch_in};
ghost use Rattle.batch_book.specs.Machine.{Machine, opened, owned, batch_of, set_stage, Gives};
ghost use Rattle.batch_book.specs.Machine.{submit, fetch, settle, show, discard, peek, poke};
ghost use Rattle.batch_book.specs.Machine.{run_to, IsRunStep, IsMachineStep};
ghost use Rattle.batch_book.specs.Running.{plan_in, plan_to_run};
ghost use Rattle.batch_book.specs.Replies.{TellsNoRun, outcome_of, outcome_in, outcome_beside};
ghost use Rattle.batch_book.specs.Told.{told};

use crate::call::Call;
use crate::limits::{MAX_BATCHES, MAX_NUMBER};
use crate::recorded_call::RecordedCall;
use crate::refusal::BookRefusal;
use crate::reply::Reply;
use crate::shared_batch::SharedBatch;
use crate::stored_batch::{BatchStage, StoredBatch};
use batch::Batch;
use crossbar::ConfigPort;
use indexmap::IndexMap;
use module_memory::Rack;
use peek_poke::WireMaker;
use schedule_certificate::{Gate, Planned};
use setting_runner::{Notice, Outcome, Plant, RunRefusal, run};
use std::alloc::{AllocError, Global};
use std::marker::Model;
use std::thread::Threads;

/// The batches that are kept, and the rack. Contracts see the machine.
pub struct BatchStore {
    // A run takes the rack and gives it back.
    rack: Option<Rack>,
    // By their numbers, in order of acceptance.
    batches: IndexMap<usize, StoredBatch>,
    // How many numbers batches and runs were given.
    given: usize,
    runs: usize,
}

// Said once, so that no function that lets go of one has to say it again.
impl Drop for BatchStore {
    fn drop(self) {
        let BatchStore {
            rack: _,
            batches: _,
            given: _,
            runs: _,
        } = self;
    }
}

impl Model for BatchStore {
    ghost use Rattle.std.specs.Option.{unwrap_or};
    ghost use Rattle.batch_book.specs.BatchStore.{AreStored, no_store};
    ghost use Rattle.batch_book.specs.Machine.{Machine};

    ghost Value = { Machine };

    ghost view = { λ h. record {
      batches = h.batches.entries;
      given = h.given;
      runs = h.runs;
      store = unwrap_or h.rack no_store;
    } };

    ghost invariant = { λ h. AreStored h.rack h.batches.entries h.given };
}

/// What is kept under a number, where it is this session's.
fn owned_by<'a>(
    batches: &'a IndexMap<usize, StoredBatch>,
    session: usize,
    id: usize,
) -> Option<&'a StoredBatch>
    ensures { option_copied result ≡ owned session (lookup (nat_eq id) batches.now.entries) }
{
    match batches.get(&id) {
        Some(found) if found.owner == session => Some(found),
        _ => None,
    }
}

/// Brings what is kept under a number to another stage.
fn bring(batches: &mut IndexMap<usize, StoredBatch>, id: usize, stage: BatchStage)
    ensures { batches.new.entries ≡ set_stage id stage batches.old.entries }
{
    if let Some(found) = batches.get_mut(&id) {
        found.stage = stage;
    }
}

impl BatchStore {
    /// This rack and no batch, with room for as many batches as may be kept. For want of memory the
    /// rack comes back as it was.
    pub fn new(alloc: Global, rack: Rack) -> Result<BatchStore, (Rack, AllocError)>
        ensures ok { IfOk result (λ batch_store. batch_store ≡ opened rack) }
        ensures err { IfErr result (λ refused. refused.0 ≡ rack) }
    {
        match IndexMap::with_capacity(alloc, MAX_BATCHES) {
            Ok(batches) => Ok(BatchStore {
                rack: Some(rack),
                batches,
                given: 0,
                runs: 0,
            }),
            Err(error) => Err((rack, error)),
        }
    }

    /// The rack.
    pub fn rack(&self) -> &Rack
        ensures { result.now ≡ self.now.store }
    {
        match &self.rack {
            Some(rack) => rack,
            None => unreachable!(),
        }
    }

    /// The session's batch of this number, where it has one.
    pub fn batch(&self, session: usize, id: usize) -> Option<&Batch>
        ensures { option_copied result ≡ batch_in (batch_of self.now session id) }
    {
        match owned_by(&self.batches, session, id) {
            Some(found) => Some(found.batch.batch()),
            None => None,
        }
    }

    /// How many runs were given a number.
    pub fn runs(&self) -> usize
        ensures { result ≡ self.now.runs }
    {
        self.runs
    }

    /// Whether there is a number for another batch, and one for another run.
    pub fn has_numbers(&self) -> bool
        ensures { result ≡ has_numbers self.now }
    {
        self.given < MAX_NUMBER && self.runs < MAX_NUMBER
    }

    fn submit(&mut self, session: usize, batch: SharedBatch) -> Result<Reply, AllocError>
        requires { self.old.given < MAX_NUMBER }
        ensures step { IfOk result (λ reply. Gives (submit self.old session batch) reply self.new) }
        ensures quiet { TellsNoRun (outcome_in result) }
        ensures unchanged { OnErr result (self.new ≡ self.old) }
    {
        if self.batches.len() >= MAX_BATCHES {
            return Ok(Reply::Refused(BookRefusal::BookFull));
        }
        // There is room from the start on, but the map doesn't say that removing a batch leaves it.
        self.batches.reserve(1)?;
        let id = self.given + 1;
        let kept = StoredBatch {
            owner: session,
            batch,
            stage: BatchStage::Waiting,
        };
        self.batches.insert(id, kept).unwrap();
        self.given = id;
        Ok(Reply::Accepted(id))
    }

    fn fetch(&self, session: usize, id: usize) -> Result<Reply, AllocError>
        ensures step { IfOk result (λ reply.
            Gives (fetch self.now (batch_of self.now session id)) reply self.now) }
        ensures quiet { TellsNoRun (outcome_in result) }
    {
        match owned_by(&self.batches, session, id) {
            Some(found) => Ok(Reply::Fetched(found.batch.batch().copy()?)),
            None => Ok(Reply::Refused(BookRefusal::Unknown)),
        }
    }

    fn settle(&mut self, session: usize, id: usize, planned: Planned) -> Reply
        ensures step { Gives (settle self.old id planned (batch_of self.old session id))
            result self.new }
        ensures quiet { TellsNoRun (outcome_of result) }
    {
        let Some(found) = owned_by(&self.batches, session, id) else {
            return Reply::Refused(BookRefusal::Unknown);
        };
        if *found.batch.batch() != *planned.batch() {
            return Reply::Refused(BookRefusal::Stranger);
        }
        match found.stage {
            BatchStage::Waiting => {
                let settings = planned.schedule().settings();
                bring(&mut self.batches, id, BatchStage::Planned(planned));
                Reply::Settled { settings }
            }
            _ => Reply::Refused(BookRefusal::Already),
        }
    }

    fn show(&self, session: usize, id: usize) -> Reply
        ensures step { Gives (show self.now (batch_of self.now session id)) result self.now }
        ensures quiet { TellsNoRun (outcome_of result) }
    {
        match owned_by(&self.batches, session, id) {
            Some(found) => Reply::Shown {
                transfers: found.batch.batch().len(),
                state: found.stage.state(),
            },
            None => Reply::Refused(BookRefusal::Unknown),
        }
    }

    fn discard(&mut self, session: usize, id: usize) -> Reply
        ensures step { Gives (discard self.old id (batch_of self.old session id)) result self.new }
        ensures quiet { TellsNoRun (outcome_of result) }
    {
        if owned_by(&self.batches, session, id).is_none() {
            return Reply::Refused(BookRefusal::Unknown);
        }
        self.batches.shift_remove(&id);
        Reply::Discarded
    }

    fn peek(&self, module: usize, address: u32) -> Reply
        ensures step { Gives (peek self.now «module» address) result self.now }
        ensures quiet { TellsNoRun (outcome_of result) }
    {
        match self.rack().read(module, address) {
            Ok(word) => Reply::Word(word),
            Err(fault) => Reply::Refused(BookRefusal::Memory(fault)),
        }
    }

    fn poke(&mut self, module: usize, address: u32, word: u32) -> Reply
        ensures step { Gives (poke self.old «module» address word) result self.new }
        ensures quiet { TellsNoRun (outcome_of result) }
    {
        let Some(rack) = &mut self.rack else {
            unreachable!()
        };
        match rack.write(module, address, word) {
            Ok(()) => Reply::Poked,
            Err(fault) => Reply::Refused(BookRefusal::Memory(fault)),
        }
    }

    fn run<R: Threads + Sync, P: ConfigPort, W: WireMaker + Sync, G: Gate + Sync, N: Notice>(
        &mut self,
        rt: &R,
        session: usize,
        id: usize,
        plant: &mut Plant<P, W, G>,
        notice: &mut N,
    ) -> Result<Reply, AllocError>
        requires number { self.old.runs < MAX_NUMBER }

        ensures step { IfOk result (λ reply.
            IsRunStep self.old id (batch_of self.old session id) reply self.new) }
        ensures unchanged { OnErr result (self.new ≡ self.old) }

        ensures plant { LeavesPlant P.ConfigPort W.is_sure self.old.store.shape
            (plan_in (batch_of self.old session id)) (outcome_in result) plant.old plant.new }
        ensures told { TellsOutcome N.hears notice.old (outcome_in result) notice.new }
    {
        let Some(found) = owned_by(&self.batches, session, id) else {
            return Ok(Reply::Refused(BookRefusal::Unknown));
        };
        let planned = match &found.stage {
            BatchStage::Waiting => return Ok(Reply::Refused(BookRefusal::Unplanned)),
            BatchStage::Planned(planned) => planned,
            BatchStage::Ran | BatchStage::Stopped => return Ok(Reply::Refused(
                BookRefusal::Already,
            )),
        };
        let alloc = *self.batches.allocator();
        let Some(rack) = self.rack.take() else {
            unreachable!()
        };
        let batch = planned.batch();
        let schedule = planned.schedule();
        let (rack, outcome) = run(rt, alloc, rack, plant, batch, schedule, notice);
        self.rack = Some(rack);
        self.end(id, &outcome)
    }

    /// Brings a batch to the stage after its run, which left these words, and gives the run's
    /// number.
    fn number(&mut self, id: usize, stage: BatchStage) -> usize
        requires { self.old.runs < MAX_NUMBER }
        ensures number { result ≡ self.old.runs + 1 }
        ensures next { self.new ≡ run_to self.old id stage self.old.store }
    {
        bring(&mut self.batches, id, stage);
        self.runs += 1;
        self.runs
    }

    /// The reply that tells of a run, which left these words. A run that was refused leaves its
    /// batch planned.
    fn end(&mut self, id: usize, outcome: &Outcome) -> Result<Reply, AllocError>
        requires { self.old.runs < MAX_NUMBER }
        ensures { EndsRun self.old id outcome.now result self.new }
    {
        match outcome {
            Outcome::Completed { settings, words } => {
                let run = self.number(id, BatchStage::Ran);
                Ok(Reply::Ran {
                    run,
                    settings: *settings,
                    words: *words,
                })
            }
            Outcome::Stopped {
                setting,
                cause,
                moved,
            } => {
                let run = self.number(id, BatchStage::Stopped);
                Ok(Reply::Stopped {
                    run,
                    setting: *setting,
                    cause: *cause,
                    moved: *moved,
                })
            }
            Outcome::Refused(RunRefusal::NoMemory) => Err(AllocError),
            Outcome::Refused(refusal) => Ok(Reply::RunRefused(*refusal)),
        }
    }

    /// One call of a session: what a history tells of it, and the reply. For want of memory nothing
    /// changes.
    pub fn answer<R: Threads + Sync, P: ConfigPort, W: WireMaker + Sync, G: Gate + Sync, N: Notice>(
        &mut self,
        rt: &R,
        session: usize,
        call: Call,
        plant: &mut Plant<P, W, G>,
        notice: &mut N,
    ) -> Result<(RecordedCall<SharedBatch>, Reply), AllocError>
        requires id { self.old.given < MAX_NUMBER }
        requires number { self.old.runs < MAX_NUMBER }

        ensures call { IfOk result (λ answered. answered.0 ≡ told call) }
        ensures step { IfOk result
            (λ answered. IsMachineStep self.old session call answered.1 self.new) }
        ensures unchanged { OnErr result (self.new ≡ self.old) }

        ensures plant { LeavesPlant P.ConfigPort W.is_sure self.old.store.shape
            (plan_to_run self.old session call) (outcome_beside result) plant.old plant.new }
        ensures told { TellsOutcome N.hears notice.old (outcome_beside result) notice.new }
    {
        match call {
            Call::Submit(batch) => {
                let batch = SharedBatch::new(*self.batches.allocator(), batch)?;
                let told = RecordedCall::Submit(batch.share()?);
                Ok((told, self.submit(session, batch)?))
            }
            Call::Fetch(id) => Ok((RecordedCall::Fetch(id), self.fetch(session, id)?)),
            Call::Settle(id, planned) => {
                Ok((RecordedCall::Settle(id), self.settle(session, id, planned)))
            }
            Call::Run(id) => Ok((
                RecordedCall::Run(id),
                self.run(rt, session, id, plant, notice)?,
            )),
            Call::Show(id) => Ok((RecordedCall::Show(id), self.show(session, id))),
            Call::Discard(id) => Ok((RecordedCall::Discard(id), self.discard(session, id))),
            Call::Peek(module, address) => {
                Ok((
                    RecordedCall::Peek(module, address),
                    self.peek(module, address),
                ))
            }
            Call::Poke(module, address, word) => {
                let told = RecordedCall::Poke(module, address, word);
                Ok((told, self.poke(module, address, word)))
            }
        }
    }
}
