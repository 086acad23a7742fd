//! Lines from any reader, through a buffer of its own, with a limit on the calls of `read`.

ghost use Rattle.std.specs.Prelude.{◌≡◌, ◌+◌, ◌-◌, ◌<◌, ◌≤◌, length, take, drop, [], Some, None};
ghost use Rattle.std.specs.Prelude.{MatchResult, MatchOption, IfSome, IfNone, IfOk, IfErr, true};
ghost use Rattle.std.specs.Prelude.{false};
ghost use Rattle.std.specs.Io.KnownBytes.{IsAtEnd};
ghost use Rattle.client_session.specs.Bytes.{PendingInput, TakesIn, HasLine, HasNoFeed, fuel};
ghost use Rattle.client_session.specs.Asking.{GivesEachTime, StopsAsking};
ghost use Rattle.client_session.specs.Faults.{HasBroughtNothing, IsFaultAt};
ghost use Rattle.client_session.specs.Steps.{IsFront, of_input};

use crate::counted_read::CountedRead;
use crate::limits::{INPUT_BYTES, LINE_BYTES, MAX_READS};
use crate::pending_line::PendingLine;
use std::io::ErrorKind;
use std::marker::Model;

/// Why no line came.
pub(crate) enum InputFault {
    /// The reader failed.
    Read,
    /// More bytes came without a line feed than a line may have.
    LineTooLong,
    /// The input ended inside a line.
    Cut,
    /// The reader was asked as often as it may be.
    Turns,
}

/// Bytes that were read and not yet taken.
#[derive(Drop)]
pub(crate) struct Input {
    buffer: [u8; INPUT_BYTES],
    start: usize,
    end: usize,
    reads: usize,
}

impl Model for Input {
    ghost use Rattle.std.specs.Prelude.{◌≤◌};
    ghost use Rattle.std.specs.List.{between};
    ghost use Rattle.client_session.specs.declared.limits.TheConstants.{INPUT_BYTES, MAX_READS};
    ghost use Rattle.client_session.specs.Bytes.{PendingInput};

    ghost Value = { PendingInput };

    ghost view = { λ s. record { pending = between s.start s.end s.buffer; reads = s.reads } };

    ghost invariant = { λ s. (s.start ≤ s.end) × (s.end ≤ INPUT_BYTES) × (s.reads ≤ MAX_READS) };
}

/// Where the first line feed of the bytes is.
fn first_feed(bytes: &[u8]) -> Option<usize>
    ensures some { IfSome result (λ n. HasLine bytes.now n) }
    ensures none { IfNone result (HasNoFeed bytes.now) }
{
    bytes.iter().position(|b| *b == b'\n')
}

impl Input {
    pub(crate) fn new() -> Input
        ensures { result ≡ record { pending = []; reads = 0 } }
    {
        Input {
            buffer: [0; INPUT_BYTES],
            start: 0,
            end: 0,
            reads: 0,
        }
    }

    /// The bytes that are pending.
    pub(crate) fn pending(&self) -> &[u8]
        ensures bytes { result.now ≡ self.now.pending }
        ensures room { (length self.now.pending ≤ INPUT_BYTES) × (self.now.reads ≤ MAX_READS) }
    {
        &self.buffer[self.start..self.end]
    }

    /// The length of the line in front, without its line feed, where it is there. No more is looked
    /// at than a line and its line feed may have.
    pub(crate) fn line_length(&self) -> Option<usize>
        ensures some { IfSome result (λ n. HasLine self.now.pending n × (n ≤ LINE_BYTES)) }
        ensures none { IfNone result (HasNoFeed (take (LINE_BYTES + 1) self.now.pending)) }
        ensures room { (length self.now.pending ≤ INPUT_BYTES) × (self.now.reads ≤ MAX_READS) }
    {
        let pending = self.pending();
        first_feed(&pending[..(LINE_BYTES + 1).min(pending.len())])
    }

    /// Whether so many lines are there after the line in front. Takes time by their length.
    pub(crate) fn has_lines(&self, count: usize) -> bool {
        let mut feeds = self.pending().iter().filter(|b| **b == b'\n');
        feeds.nth(count).is_some()
    }

    /// Drops the first n bytes.
    pub(crate) fn skip(&mut self, n: usize)
        requires { n ≤ length self.old.pending }
        ensures pending { self.new.pending ≡ drop n self.old.pending }
        ensures reads { self.new.reads ≡ self.old.reads }
    {
        self.start += n;
    }

    /// Asks the reader once, and says whether more may come: not at its end. A read that a signal
    /// interrupts brought nothing, and counts. What is pending is moved to the front first.
    fn fill<R: CountedRead>(&mut self, reader: &mut R) -> Result<bool, InputFault>
        requires { length self.old.pending ≤ LINE_BYTES }
        ensures takes { TakesIn (R.remaining reader.old) (R.remaining reader.new) self.old
            self.new }
        ensures same { IfOk result (λ more. more ≡ false → self.new.pending ≡ self.old.pending) }
        ensures end { IfOk result (λ more. more ≡ false → IsAtEnd (R.remaining reader.new)) }
        ensures reads { IfOk result (λ more. more ≡ true
            → self.new.reads ≡ self.old.reads + 1) }
        ensures err { IfErr result (λ e. HasBroughtNothing e self.old self.new) }
        ensures gives { IfOk result (λ more. more ≡ true →
            GivesEachTime (R.asked reader.old) (R.asked reader.new) self.old.reads self.new.reads) }
        ensures last { IfOk result (λ more. more ≡ false →
            StopsAsking (R.asked reader.old) (R.asked reader.new) self.old.reads None) }
        ensures stops { IfErr result (λ e.
            StopsAsking (R.asked reader.old) (R.asked reader.new) self.old.reads
            (Some (of_input e))) }
        ensures room { (length self.new.pending ≤ INPUT_BYTES) × (self.new.reads ≤ MAX_READS)
            × (self.old.reads ≤ self.new.reads) }
    {
        if self.reads == MAX_READS {
            return Err(InputFault::Turns);
        }
        let len = self.end - self.start;
        self.buffer.copy_within(self.start..self.end, 0);
        self.start = 0;
        self.end = len;
        match reader.ask(&mut self.buffer[len..]) {
            Ok(0) => Ok(false),
            Ok(n) => {
                self.end = len + n;
                self.reads += 1;
                Ok(true)
            }
            Err(error) if error.kind() == ErrorKind::Interrupted => {
                self.reads += 1;
                Ok(true)
            }
            Err(_) => Err(InputFault::Read),
        }
    }

    /// What is in front where no more bytes come: nothing, or a line that is cut.
    fn at_end(&self) -> Result<Option<usize>, InputFault>
        ensures ok { IfOk result (λ found. (found ≡ None) × (self.now.pending ≡ [])) }
        ensures err { IfErr result (λ e. (e ≡ InputFault.Cut) × (0 < length self.now.pending)) }
    {
        if self.start == self.end {
            Ok(None)
        } else {
            Err(InputFault::Cut)
        }
    }

    /// The length of the line in front, without its line feed, or nothing at the end of the input.
    /// Where it was found before, it isn't looked for again, and nothing changes. Else it takes
    /// time by the length of the line times the reads that it came in.
    #[inline(always)]
    pub(crate) fn next_line<R: CountedRead>(
        &mut self,
        reader: &mut R,
        found: Option<PendingLine>,
    ) -> Result<Option<usize>, InputFault>
        requires reads { self.old.reads ≤ MAX_READS }
        requires found { IfSome found (IsFront self.old.pending) }
        ensures found { IfSome found (λ _. self.new ≡ self.old) }
        ensures takes { TakesIn (R.remaining reader.old) (R.remaining reader.new) self.old
            self.new }
        ensures line { IfOk result (λ found. MatchOption found
            ((self.new.pending ≡ []) × IsAtEnd (R.remaining reader.new))
            (λ n. HasLine self.new.pending n × (n ≤ LINE_BYTES))) }
        ensures err { IfErr result (λ e. IsFaultAt e (R.remaining reader.new) self.new) }
        ensures asks { MatchResult result
            (λ found. MatchOption found
            (StopsAsking (R.asked reader.old) (R.asked reader.new) self.old.reads None)
            (λ _. GivesEachTime (R.asked reader.old) (R.asked reader.new)
            self.old.reads self.new.reads))
            (λ e. StopsAsking (R.asked reader.old) (R.asked reader.new) self.old.reads
            (Some (of_input e))) }
        ensures fuel { fuel self.new ≤ fuel self.old }
        ensures room { (length self.new.pending ≤ INPUT_BYTES) × (self.new.reads ≤ MAX_READS) }
    {
        // Its contract has the bounds of what is pending.
        self.pending();
        if let Some(front) = found {
            return Ok(Some(front.length));
        }
        loop {
            if let Some(n) = self.line_length() {
                return Ok(Some(n));
            }
            if self.pending().len() > LINE_BYTES {
                return Err(InputFault::LineTooLong);
            }
            if !self.fill(reader)? {
                return self.at_end();
            }
        }
    }
}
