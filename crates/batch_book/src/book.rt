//! The book.

ghost use Rattle.std.specs.Option.{option_copied};
ghost use Rattle.std.specs.Prelude.{◌+◌, ◌≡◌, ◌↔◌, ◌≤◌, [], true, false, List, IfOk, IfErr, OnOk};
ghost use Rattle.std.specs.Prelude.{OnErr, length};
ghost use Rattle.setting_runner.specs.Plants.{LeavesPlant};
ghost use Rattle.setting_runner.specs.Runs.{TellsOutcome};
ghost use Rattle.batch_book.specs.BatchStore.{batch_in};
ghost use Rattle.batch_book.specs.Machine.{opened, batch_of};
ghost use Rattle.batch_book.specs.Running.{plan_to_run};
ghost use Rattle.batch_book.specs.Replies.{is_logged, outcome_of, outcome_in};
ghost use Rattle.batch_book.specs.History.{new_book_view, IsReplay, IsLegal, IsFull, IsGrown};
ghost use Rattle.batch_book.specs.History.{IsSound, IsSoundBook, IsPrefix, book_view};
ghost use Rattle.batch_book.specs.History.{has_book_room};
ghost use Rattle.batch_book.specs.declared.entry.Entry.{Entry};
ghost use Rattle.batch_book.specs.Recording.{Applies, IsAnswered};
ghost use Rattle.batch_book.specs.Values.{greatest};

use crate::batch_store::BatchStore;
use crate::call::Call;
use crate::entry::Entry;
use crate::entry_log::EntryLog;
use crate::ghost_history::GhostHistory;
use crate::history::History;
use crate::limits::{MAX_ENTRIES, MAX_NUMBER};
use crate::logged::{LoggedCall, LoggedReply};
use crate::memory_history::MemoryHistory;
use crate::pending_entries::PendingEntries;
use crate::recorder::Recorder;
use crate::refusal::BookRefusal;
use crate::reply::Reply;
use crate::unrecorded::Unrecorded;
use batch::Batch;
use crossbar::ConfigPort;
use module_memory::Rack;
use peek_poke::WireMaker;
use schedule_certificate::Gate;
use setting_runner::{Notice, Plant};
use std::alloc::{AllocError, Global};
use std::marker::Model;
use std::snapshot::Snapshot;
use std::thread::Threads;

/// A book without its history. Contracts see the words that it was opened with, and the machine.
#[derive(Drop)]
pub struct BareBook {
    batch_store: BatchStore,
    opening: Rack,
    furthest: u64,
}

impl Model for BareBook {
    ghost use Rattle.batch_book.specs.History.{BareBookView};

    ghost Value = { BareBookView };

    ghost view = { λ b. record {
      opening = b.opening;
      machine = b.batch_store;
      furthest = b.furthest;
    } };
}

impl BareBook {
    /// The rack, with the words that the history left.
    pub fn rack(&self) -> &Rack
        ensures { result.now ≡ self.now.machine.store }
    {
        self.batch_store.rack()
    }
}

/// The batches that sessions have submitted, the rack that these are run on, and the history of
/// what was asked and answered. Contracts see the words that it was opened with, the history, its
/// first entries, which are durable, the machine that this has led to, step by step, and whether
/// the others can still become so.
pub struct Book<H: EntryLog = MemoryHistory> {
    batch_store: BatchStore,
    opening: Rack,
    history: H,
    // How far the runs of the history have come.
    furthest: u64,
}

// Said once, so that no function that lets go of one has to say it again.
impl<H: EntryLog + Drop> Drop for Book<H> {
    fn drop(self) {
        let Book {
            batch_store: _,
            opening: _,
            history: _,
            furthest: _,
        } = self;
    }
}

impl<H: EntryLog> Model for Book<H> {
    ghost use Rattle.std.specs.Prelude.{◌≡◌};
    ghost use Rattle.batch_book.specs.History.{BookView, book_view, IsSoundBook};
    ghost use Rattle.batch_book.specs.Values.{greatest};

    ghost Value = { BookView };

    ghost view = { λ b. book_view b.opening (H.pushed b.history) (H.durable b.history) b.batch_store
        (H.whole b.history) };

    ghost invariant = { λ b. IsSoundBook H.limited H.loses
        (book_view b.opening (H.pushed b.history) (H.durable b.history) b.batch_store
        (H.whole b.history))
        × (b.furthest ≡ greatest (H.pushed b.history)) };
}

impl Book<MemoryHistory> {
    /// A book of this rack, with no batch and no entry. It takes memory, and time, for a copy of
    /// the rack and for as many batches as it may hold; where there is no memory the rack comes
    /// back as it was.
    pub fn new(alloc: Global, rack: Rack) -> Result<Book<MemoryHistory>, (Rack, AllocError)>
        ensures ok { IfOk result (λ book. book ≡ new_book_view rack) }
        ensures unchanged { IfErr result (λ refused. refused.0 ≡ rack) }
    {
        match Book::with(alloc, rack, MemoryHistory::new(alloc)) {
            Ok(book) => Ok(book),
            Err((rack, _, error)) => Err((rack, error)),
        }
    }

    /// What was asked and answered, in order. Each reply is one that the machine may give where the
    /// entries before it lead, and the batches and memories are where all of them lead.
    pub fn history(&self) -> &[Entry]
        ensures history { result.now ≡ self.now.history }
        ensures replay { IsReplay (opened self.now.opening) self.now.history self.now.machine }
        ensures legal { IsLegal self.now.opening self.now.history }
        ensures few { length self.now.history ≤ MAX_ENTRIES }
        ensures whole { self.now.whole ≡ true }
    {
        self.history.entries.as_slice()
    }
}

impl<H: EntryLog> Book<H> {
    /// A book over this rack, with no batches, whose entries go to this history. It is empty.
    pub fn with(alloc: Global, rack: Rack, history: H) -> Result<Book<H>, (Rack, H, AllocError)>
        requires empty { H.pushed history ≡ [] }
        requires none { H.durable history ≡ [] }
        requires whole { H.whole history ≡ true }
        ensures ok { IfOk result (λ book. book ≡ new_book_view rack) }
        ensures unchanged { IfErr result (λ back. (back.0 ≡ rack) × (back.1 ≡ history)) }
    {
        let opening = match rack.copy() {
            Ok(opening) => opening,
            Err(error) => return Err((rack, history, error)),
        };
        match BatchStore::new(alloc, rack) {
            Ok(batch_store) => Ok(Book {
                batch_store,
                opening,
                history,
                furthest: 0,
            }),
            Err((rack, error)) => Err((rack, history, error)),
        }
    }

    /// Where the entries go. Each reply is one that the machine may give where the entries before
    /// it lead, and the batches and memories are where all of them lead.
    pub fn log(&self) -> &H
        ensures pushed { H.pushed result.now ≡ self.now.history }
        ensures durable { H.durable result.now ≡ self.now.durable }
        ensures whole { H.whole result.now ≡ self.now.whole }
        ensures all { H.loses ≡ false → self.now.durable ≡ self.now.history }
        ensures replay { IsReplay (opened self.now.opening) self.now.history self.now.machine }
    {
        &self.history
    }

    /// The book without its history, and that.
    pub fn part(self) -> (BareBook, H)
        ensures kept { IsSoundBook H.limited H.loses (book_view result.0.opening (H.pushed result.1)
            (H.durable result.1) result.0.machine (H.whole result.1)) }
        ensures same { book_view result.0.opening (H.pushed result.1) (H.durable result.1)
            result.0.machine (H.whole result.1) ≡ self }
        ensures furthest { result.0.furthest ≡ greatest (H.pushed result.1) }
    {
        let Book {
            batch_store,
            opening,
            history,
            furthest,
        } = self;
        (
            BareBook {
                batch_store,
                opening,
                furthest,
            },
            history,
        )
    }

    /// The book that goes on with this history.
    pub fn go_on(bare: BareBook, history: H) -> Book<H>
        requires kept { IsSoundBook H.limited H.loses (book_view bare.opening (H.pushed history)
            (H.durable history) bare.machine (H.whole history)) }
        requires furthest { bare.furthest ≡ greatest (H.pushed history) }
        ensures { result ≡ book_view bare.opening (H.pushed history) (H.durable history)
            bare.machine (H.whole history) }
    {
        let BareBook {
            batch_store,
            opening,
            furthest,
        } = bare;
        Book {
            batch_store,
            opening,
            history,
            furthest,
        }
    }

    /// The session's batch of this number, where it has one.
    pub fn batch(&self, session: usize, id: usize) -> Option<&Batch>
        ensures { option_copied result ≡ batch_in (batch_of self.now.machine session id) }
    {
        self.batch_store.batch(session, id)
    }

    /// The rack, with the words that the history leaves.
    pub fn rack(&self) -> &Rack
        ensures { result.now ≡ self.now.machine.store }
    {
        self.batch_store.rack()
    }

    /// A copy of the rack that the book was made with.
    pub fn opening(&self) -> &Rack
        ensures { result.now ≡ self.now.opening }
    {
        &self.opening
    }

    /// How far the runs of the history have come, as the progress word has it.
    pub(crate) fn furthest(&self) -> u64
        ensures { result ≡ greatest self.now.history }
    {
        self.furthest
    }

    /// The number that the next run gets.
    pub(crate) fn next_run(&self) -> usize
        ensures number { result ≡ self.now.machine.runs + 1 }
        ensures limit { result ≤ MAX_NUMBER + 1 }
        ensures sound { IsSound self.now.machine }
    {
        // Its contract has the bounds of the shape, of which `sound` tells.
        let _shape = self.batch_store.rack().shape();
        self.batch_store.runs() + 1
    }

    /// Whether there is room for another entry, whatever it tells.
    fn has_room(&self) -> bool
        ensures room { result ≡ has_book_room H.limited self.now }
        ensures full { result ≡ false → IsFull H.limited self.now }
    {
        self.history.has_room() && self.batch_store.has_numbers()
    }

    /// One call of a session, and its reply: the history has both then, but where there was no room
    /// for them, and where there was no memory: then nothing has changed. A plan of a call that is
    /// refused is dropped.
    ///
    /// The reply can be told once the entry is durable. Where one was lost before, no call is made.
    ///
    /// Where there is no room no memory is asked for. Else all of it is taken before anything
    /// changes: for the entry, for the copy of a batch that is fetched, and for the run, if there
    /// is one. An entry keeps no plan and no batch that was fetched. It shares a batch that was
    /// handed in with the book, while that has it.
    ///
    /// A run takes its time, `Fetch` and `Settle` take time by the batch, and `Discard` by the
    /// batches that are held. All other calls take constant time, beside what the history takes,
    /// however long it is, but for those few at which its memory grows.
    #[inline(always)]
    pub fn try_apply<
        R: Threads + Sync,
        P: ConfigPort,
        W: WireMaker + Sync,
        G: Gate + Sync,
        N: Notice,
    >(
        &mut self,
        rt: &R,
        session: usize,
        call: Call,
        plant: &mut Plant<P, W, G>,
        notice: &mut N,
    ) -> Result<Reply, Unrecorded>

        // One step of the machine, and one entry more.
        ensures step { Applies self.old session call result self.new }
        ensures waits { H.loses ≡ true → self.new.durable ≡ self.old.durable }
        ensures opening { self.new.opening ≡ self.old.opening }
        ensures full { IfOk result (λ reply.
            (reply ≡ Reply.Refused BookRefusal.HistoryFull) ↔ IsFull H.limited self.old) }
        ensures loses { OnErr result (H.loses ≡ true) }

        // What a run leaves of the plant, and what the notice is told. Nothing else does anything
        // to them.
        ensures plant { LeavesPlant P.ConfigPort W.is_sure self.old.machine.store.shape
            (plan_to_run self.old.machine session call) (outcome_in result) plant.old plant.new }
        ensures told { TellsOutcome N.hears notice.old (outcome_in result) notice.new }
    {
        if !self.history.is_whole() {
            return Err(Unrecorded);
        }
        if !self.has_room() {
            return Ok(Reply::Refused(BookRefusal::HistoryFull));
        }
        match self.apply_in_room(rt, session, call, plant, notice) {
            Ok(reply) => Ok(reply),
            Err(_) => Ok(Reply::Refused(BookRefusal::NoMemory)),
        }
    }

    /// One call of a session, where there is room for its entry. For want of memory nothing
    /// changes.
    #[inline(always)]
    fn apply_in_room<
        R: Threads + Sync,
        P: ConfigPort,
        W: WireMaker + Sync,
        G: Gate + Sync,
        N: Notice,
    >(
        &mut self,
        rt: &R,
        session: usize,
        call: Call,
        plant: &mut Plant<P, W, G>,
        notice: &mut N,
    ) -> Result<Reply, AllocError>
        requires whole { self.old.whole ≡ true }
        requires room { has_book_room H.limited self.old ≡ true }

        ensures step { IfOk result (λ reply. IsAnswered self.old session call reply self.new) }
        ensures logged { IfOk result (λ reply. is_logged reply ≡ true) }
        ensures waits { H.loses ≡ true → self.new.durable ≡ self.old.durable }
        ensures opening { self.new.opening ≡ self.old.opening }
        ensures unchanged { OnErr result (self.new ≡ self.old) }

        ensures plant { LeavesPlant P.ConfigPort W.is_sure self.old.machine.store.shape
            (plan_to_run self.old.machine session call) (outcome_in result) plant.old plant.new }
        ensures told { TellsOutcome N.hears notice.old (outcome_in result) notice.new }
    {
        // Its contract has the bounds of the shape, by which the machine is sound.
        let _shape = self.batch_store.rack().shape();
        self.history.draft(session, &call)?;
        let asked = Snapshot::of(&call);
        let (told, reply) = self.batch_store.answer(rt, session, call, plant, notice)?;
        self.furthest = self.furthest.max(reply.value());
        let entry = Entry {
            session,
            call: LoggedCall::new(asked, told),
            reply: LoggedReply::of(&reply),
        };
        self.history.push(entry);
        Ok(reply)
    }

    /// Answers a call as [`try_apply`](Book::try_apply) does, for a history that loses no entry, as
    /// [`MemoryHistory`] and [`NullHistory`](crate::NullHistory).
    pub fn apply<R: Threads + Sync, P: ConfigPort, W: WireMaker + Sync, G: Gate + Sync, N: Notice>(
        &mut self,
        rt: &R,
        session: usize,
        call: Call,
        plant: &mut Plant<P, W, G>,
        notice: &mut N,
    ) -> Reply
        requires sure { H.loses ≡ false }

        ensures grown { is_logged result ≡ true → IsGrown self.old session call result self.new }
        ensures opening { self.new.opening ≡ self.old.opening }
        ensures whole { self.new.whole ≡ true }
        ensures full { (result ≡ Reply.Refused BookRefusal.HistoryFull)
            ↔ IsFull H.limited self.old }
        ensures unchanged { is_logged result ≡ false → self.new ≡ self.old }

        ensures plant { LeavesPlant P.ConfigPort W.is_sure self.old.machine.store.shape
            (plan_to_run self.old.machine session call) (outcome_of result) plant.old plant.new }
        ensures told { TellsOutcome N.hears notice.old (outcome_of result) notice.new }
    {
        match self.try_apply(rt, session, call, plant, notice) {
            Ok(reply) => reply,
            Err(_) => unreachable!(),
        }
    }
}

impl<E: PendingEntries> Book<E> {
    /// The entries of the history, for contracts alone.
    pub(crate) fn past(&self) -> Snapshot<GhostHistory>
        ensures { result.value ≡ self.now.history }
    {
        self.history.past()
    }

    /// Queues what is pending: puts its text after this one. Where there is no memory for it
    /// nothing changes.
    pub(crate) fn queue_text(&mut self, text: &mut Vec<u8>) -> Result<(), AllocError>
        ensures all { OnOk result (self.new ≡ record self.old { durable = self.old.history }) }
        ensures text { OnOk result ((taken : List Entry) → IsPrefix taken self.old.durable
            → text.old.items ≡ E.texts taken self.old.durable
            → text.new.items ≡ E.texts taken self.old.history) }
        ensures none { OnErr result (self.new ≡ self.old) }
        ensures same { OnErr result (text.new.items ≡ text.old.items) }
    {
        self.history.queue_text(text)
    }
}

/// A book whose recorder is lent, and that; or the book as it was, where its history loses no
/// entry.
pub(crate) fn lend<H: History>(book: Book<H>) -> Result<(Book<H::Pending>, H::Recorder), Book<H>>
    requires whole { book.whole ≡ true }
    requires all { book.durable ≡ book.history }
    ensures book { IfOk result (λ parts. parts.0 ≡ book) }
    ensures durable { IfOk result (λ parts. H.Recorder.durable parts.1 ≡ book.history) }
    ensures tried { IfOk result (λ parts. H.Recorder.tried parts.1 ≡ book.history) }
    ensures texts { OnOk result ((taken all : List Entry)
        → H.Pending.texts taken all ≡ H.Recorder.texts taken all) }
    ensures limited { OnOk result (H.Pending.limited ≡ H.limited) }
    ensures loses { OnOk result ((H.loses ≡ true) × (H.Pending.loses ≡ true)) }
    ensures sure { OnErr result (H.loses ≡ false) }
    ensures back { IfErr result (λ back. back ≡ book) }
{
    let (bare, history) = book.part();
    match history.lend() {
        Ok((pending, recorder)) => Ok((Book::go_on(bare, pending), recorder)),
        Err(history) => Err(Book::go_on(bare, history)),
    }
}

/// The book whose recorder is back, which writes all that this hasn't got, unless a writing has
/// failed: this text of the entries that were queued, and that of the others.
pub(crate) fn take_back<H: History>(
    book: Book<H::Pending>,
    recorder: H::Recorder,
    text: &[u8],
) -> Book<H>
    requires loses { H.loses ≡ true }
    requires limited { H.Pending.limited ≡ H.limited }
    requires durable { IsPrefix (H.Recorder.durable recorder) (H.Recorder.tried recorder) }
    requires first { IsPrefix (H.Recorder.tried recorder) book.durable }
    requires text { text.now ≡ H.Recorder.texts (H.Recorder.tried recorder) book.durable }
    ensures opening { result.opening ≡ book.opening }
    ensures history { result.history ≡ book.history }
    ensures more { IsPrefix (H.Recorder.durable recorder) result.durable }
    ensures all { result.whole ≡ true → result.durable ≡ result.history }
{
    let (bare, pending) = book.part();
    let Some(history) = H::take_back(pending, recorder, text) else {
        unreachable!()
    };
    Book::go_on(bare, history)
}
