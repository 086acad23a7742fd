//! Why a text was refused.

ghost use Rattle.std.specs.Prelude.{◌≡◌, IfOk, MatchOption};
ghost use Rattle.exchange_c.specs.Why.{IsAnswerOf, IsWhy, asked_by};
ghost use Rattle.exchange_c.specs.Writing.{Leaves};
ghost use Rattle.exchange_c.specs.declared.status.TheConstants.{NO_CALL};

use crate::status::NO_CALL;
use crate::{leave, source_of};
use exchange_limits::WorkerCount;
use plan_answers::{
    Answer, Planning, answer_changes, answer_check, answer_direct, answer_draw, answer_plan,
};
use rack_answers::{answer_apply, answer_orders, answer_switch};
use refusal_notes::{Listing, NamedText, RefusalContext, second_line};
use refusals::{Refusal, Validity};
use schedule_certificate::NoThreads;
use std::alloc::{AllocError, Global};
use step_count::Steps;

/// A call that answers to texts.
#[derive(Clone, Copy)]
enum LibraryCall {
    Plan,
    Check,
    Switch,
    Apply,
    Draw,
    Changes,
    Direct,
    SwitchWired,
    Orders,
}

/// The texts of a call, in the order of its arguments. Those that it hasn't have no effect.
#[derive(Clone, Copy)]
struct CallTexts<'a> {
    first: &'a [u8],
    second: &'a [u8],
    third: &'a [u8],
}

/// What the second line calls the texts, one name a line.
#[derive(Clone, Copy)]
struct TextNames<'a> {
    lines: &'a str,
}

impl<'a> TextNames<'a> {
    /// The name on the line of this number, counted from 0; the other where there is none.
    fn at(self, number: usize, other: &'static str) -> &'a str {
        match self.lines.split('\n').nth(number) {
            None | Some("") => other,
            Some(name) => name,
        }
    }
}

impl LibraryCall {
    /// The call of a number.
    fn of(number: u8) -> Option<LibraryCall>
        ensures { result ≡ asked_by number }
    {
        match number {
            0 => Some(LibraryCall::Plan),
            1 => Some(LibraryCall::Check),
            2 => Some(LibraryCall::Switch),
            3 => Some(LibraryCall::Apply),
            4 => Some(LibraryCall::Draw),
            5 => Some(LibraryCall::Changes),
            6 => Some(LibraryCall::Direct),
            7 => Some(LibraryCall::SwitchWired),
            8 => Some(LibraryCall::Orders),
            _ => None,
        }
    }

    /// What the call answers.
    fn answer(self, alloc: Global, given: CallTexts<'_>) -> Result<Answer, AllocError>
        ensures { IfOk result (IsAnswerOf self
            given.entry.first.now given.entry.second.now given.entry.third.now) }
    {
        let (first, second, third) = (given.first, given.second, given.third);
        let (rt, workers) = (&NoThreads, WorkerCount::ONE);
        match self {
            LibraryCall::Plan => answer_plan(
                rt,
                alloc,
                first,
                Planning::Plain,
                workers,
                &mut Steps::none(),
            ),
            LibraryCall::Check => answer_check(alloc, first, second),
            LibraryCall::Switch => answer_switch(
                rt,
                alloc,
                false,
                None,
                first,
                source_of(second),
                workers,
            ),
            LibraryCall::Apply => answer_apply(alloc, first, second, third),
            LibraryCall::Draw => answer_draw(alloc, first, second, None),
            LibraryCall::Changes => answer_changes(alloc, first, second),
            LibraryCall::Direct => answer_direct(alloc, first),
            LibraryCall::SwitchWired => {
                answer_switch(
                    rt,
                    alloc,
                    false,
                    Some(third),
                    first,
                    source_of(second),
                    workers,
                )
            }
            LibraryCall::Orders => answer_orders(
                rt,
                alloc,
                first,
                source_of(second),
                None,
                workers,
            ),
        }
    }

    /// What its refusals are told of. The shape is that of a call that has one.
    fn texts<'a>(
        self,
        given: CallTexts<'a>,
        names: TextNames<'a>,
        shape: &'a str,
    ) -> RefusalContext<'a> {
        let list = NamedText {
            name: names.at(0, "batch"),
            text: given.first,
        };
        let other = NamedText {
            name: names.at(1, "schedule"),
            text: given.second,
        };
        match self {
            LibraryCall::Apply => RefusalContext {
                list: NamedText {
                    name: names.at(1, "batch"),
                    text: given.second,
                },
                other: NamedText {
                    name: names.at(2, "image"),
                    text: given.third,
                },
                shape,
                ..RefusalContext::NONE
            },
            LibraryCall::Direct => RefusalContext {
                list: NamedText {
                    name: names.at(0, "moves"),
                    text: given.first,
                },
                listing: Listing::Moves,
                ..RefusalContext::NONE
            },
            LibraryCall::SwitchWired => RefusalContext {
                list,
                other,
                wiring: NamedText {
                    name: names.at(2, "wiring"),
                    text: given.third,
                },
                ..RefusalContext::NONE
            },
            _ => RefusalContext {
                list,
                other,
                ..RefusalContext::NONE
            },
        }
    }
}

/// Whether there was no memory to find out what is told besides: a schedule whose certificate is
/// missing or wrong is judged without it.
fn is_cut(refusal: Refusal, validity: Validity) -> bool {
    match refusal {
        Refusal::NoCertificate
        | Refusal::CheckWrongLink(_)
        | Refusal::CheckCertificateRepeats(_)
        | Refusal::CheckNotTight { .. } => validity == Validity::Unknown,
        _ => false,
    }
}

/// The second line of the refusal that a call gives of its texts, or nothing where it refuses none.
/// Want of memory for all of it is the error.
fn why(
    alloc: Global,
    asked: LibraryCall,
    given: CallTexts<'_>,
    names: &[u8],
) -> Result<Answer, AllocError>
    ensures { IfOk result (IsWhy asked
        given.entry.first.now given.entry.second.now given.entry.third.now) }
{
    let answer = asked.answer(alloc, given)?;
    let Some(refusal) = answer.refusal() else {
        return Ok(Answer::done(Vec::new(alloc)));
    };
    if is_cut(refusal, answer.validity()) {
        return Err(AllocError);
    }
    let names = String::from_utf8_lossy(alloc, names)?;
    let shape = String::from_utf8_lossy(alloc, given.first)?;
    let texts = RefusalContext {
        validity: answer.validity(),
        ..asked.texts(
            given,
            TextNames {
                lines: names.as_str(),
            },
            shape.as_str(),
        )
    };
    match second_line(alloc, refusal, texts) {
        Some(line) => Ok(Answer::done(line.into_bytes())),
        None => Err(AllocError),
    }
}

/// What `exchange` tells on standard error beside the refusal that a call gives of these texts: one
/// line, or nothing where the call refuses none. Call 0 is `exchange_plan`, 1 `exchange_check`, 2
/// `exchange_switch`, 3 `exchange_apply`, 4 `exchange_draw`, 5 `exchange_changes`, 6
/// `exchange_direct`, 7 `exchange_switch_wired`, and 8 `exchange_orders`.
#[unsafe(no_mangle)]
pub extern "C" fn exchange_why(
    alloc: Global,
    call: u8,
    first: &[u8],
    second: &[u8],
    third: &[u8],
    names: &[u8],
    out: &mut [u8],
    count: &mut usize,
) -> u8
    ensures { MatchOption (asked_by call)
        ((count.new ≡ 0) × (out.new ≡ out.old) × (result ≡ NO_CALL))
        (λ asked. Leaves (IsWhy asked first.now second.now third.now)
        out.old out.new count.new result) }
{
    let Some(asked) = LibraryCall::of(call) else {
        *count = 0;
        return NO_CALL;
    };
    let given = CallTexts {
        first,
        second,
        third,
    };
    leave(why(alloc, asked, given, names), out, count)
}
