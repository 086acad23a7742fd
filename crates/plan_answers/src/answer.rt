ghost use Rattle.std.specs.Prelude.{◌≡◌, IfOk, IfSome};
ghost use Rattle.plan_answers.specs.Refusals.{Refuses};

use crate::limits::{DONE, REFUSED};
use refusals::{Refusal, Validity};
use std::alloc::{AllocError, Global};
use std::marker::Model;

/// What a command prints on standard output, and the status that the program ends with.
///
/// Where that is a refusal, it keeps which one, and what was found out about a schedule that is
/// refused. Whoever prints it can say more.
#[derive(Drop)]
pub struct Answer {
    bytes: Vec<u8>,
    code: u8,
    cause: Option<Refusal>,
    known: Validity,
}

impl Model for Answer {
    ghost use Rattle.std.specs.Prelude.{IfSome};
    ghost use Rattle.plan_answers.specs.Refusals.{Printed, Refuses};

    ghost Value = { Printed };

    ghost view = { λ a. record { text = a.bytes.items; status = a.code } };

    // a refusal is printed as its line, under its status
    ghost invariant = { λ a. IfSome a.cause (λ refusal.
        Refuses refusal (record { text = a.bytes.items; status = a.code })) };
}

impl Answer {
    /// The bytes that are printed: whole lines, or an image.
    pub fn text(&self) -> &[u8]
        ensures { result.now ≡ self.now.text }
    {
        self.bytes.as_slice()
    }

    /// [`DONE`] where the command did what was asked, [`REFUSED`] where it refused.
    pub fn status(&self) -> u8
        ensures { result ≡ self.now.status }
    {
        self.code
    }

    /// The refusal whose line is printed, where the answer keeps one. By the contract it may always
    /// keep none.
    pub fn refusal(&self) -> Option<Refusal>
        ensures { IfSome result (λ refusal. Refuses refusal self.now) }
    {
        self.cause
    }

    /// What the answer keeps of a schedule that is refused. No contract says what that is.
    pub fn validity(&self) -> Validity {
        self.known
    }

    /// A text under the status [`DONE`].
    pub fn done(text: Vec<u8>) -> Answer
        ensures text { result.text ≡ text.items }
        ensures status { result.status ≡ DONE }
    {
        Answer {
            bytes: text,
            code: DONE,
            cause: None,
            known: Validity::Unknown,
        }
    }

    /// A text under the status [`REFUSED`].
    pub fn failed(text: Vec<u8>) -> Answer
        ensures text { result.text ≡ text.items }
        ensures status { result.status ≡ REFUSED }
    {
        Answer {
            bytes: text,
            code: REFUSED,
            cause: None,
            known: Validity::Unknown,
        }
    }

    /// The line of a refusal, under the status [`REFUSED`]. Want of memory is the error.
    pub fn refused(alloc: Global, refusal: Refusal) -> Result<Answer, AllocError>
        ensures { IfOk result (Refuses refusal) }
    {
        if let Refusal::NoMemory = refusal {
            return Err(AllocError);
        }
        Ok(Answer {
            bytes: Vec::from_slice(alloc, refusal.line().as_bytes())?,
            code: REFUSED,
            cause: Some(refusal),
            known: Validity::Unknown,
        })
    }

    /// This answer, with what is known of the schedule that it refuses.
    pub fn with_validity(mut self, validity: Validity) -> Answer
        ensures { result ≡ self }
    {
        self.known = validity;
        self
    }
}
