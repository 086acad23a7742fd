//! Texts that list things, read from the left. Each reader but the last gives what it has read and
//! the rest.

ghost use Rattle.std.specs.Prelude.{◌≡◌, ◌<◌, ◌++◌, IfSome, IfNone, IfOk, IfErr};
ghost use Rattle.batch.specs.Numbers.{IsDigit};
ghost use Rattle.batch.specs.Lists.{Denotes, IsWithin, line};
ghost use Rattle.batch.specs.ListFaults.{BeginsWithLine, BeginsWithNoLine, BeginsWithNoPlace};
ghost use Rattle.batch.specs.ListFaults.{BeginsWithPlace, ButForMemory, ForMemory, HasNoHead};
ghost use Rattle.batch.specs.ListFaults.{IsFirstFault, IsHeaded, IsLineFault, NeedsMemory};

use crate::fault::BatchFault;
use crate::limits::MAX_TRANSFERS;
use crate::listed::Listed;
use crate::reading::number_before;
use crate::shape::Shape;
use crate::transfer::Place;
use std::alloc::Global;

/// The first line of a list.
fn first_line<T: Listed>(text: &[u8]) -> Option<(usize, &[u8])>
    ensures some { IfSome result (λ x. IsHeaded T.form text.now x.0 x.1.now) }
    ensures none { IfNone result (HasNoHead T.form text.now) }
{
    number_before(text.strip_prefix(T::heading().as_bytes())?, b'\n')
}

/// A place and the byte that ends it, which is no digit. Reading takes a sixth more instructions
/// where it is a call.
#[inline(always)]
fn place_before(bytes: &[u8], end: u8) -> Option<(Place, &[u8])>
    requires { IsDigit end → ⊥ }
    ensures some { IfSome result (λ x. BeginsWithPlace bytes.now x.0 end x.1.now) }
    ensures none { IfNone result (BeginsWithNoPlace bytes.now end) }
{
    let (module, rest) = number_before(bytes, b' ')?;
    let (block, rest) = number_before(rest, end)?;
    Some((Place { module, block }, rest))
}

/// The line of a thing.
fn thing_line<T: Listed>(bytes: &[u8]) -> Option<(T, &[u8])>
    ensures some { IfSome result (λ x. BeginsWithLine T.form bytes.now x.0 x.1.now) }
    ensures none { IfNone result (BeginsWithNoLine T.form bytes.now) }
{
    let (word, rest) = T::read_word(bytes)?;
    let (first, rest) = place_before(rest, b' ')?;
    let (second, rest) = place_before(rest, b'\n')?;
    Some((T::of(word, first, second), rest))
}

/// Thing `t`, whose places the shape must have.
fn next_thing<T: Listed>(rest: &[u8], t: usize, shape: Shape) -> Result<(T, &[u8]), BatchFault>
    requires { t < MAX_TRANSFERS }
    ensures ok { IfOk result (λ x.
        IsWithin T.form shape x.0 × (rest.now ≡ line T.form x.0 ++ x.1.now)) }
    ensures err { IfErr result (λ fault. IsLineFault T.form shape t rest.now fault) }
{
    if rest.is_empty() {
        return Err(BatchFault::Count);
    }
    let Some((thing, after)) = thing_line::<T>(rest) else {
        return Err(BatchFault::Line(t + 2));
    };
    let (first, second) = thing.places();
    if first.module >= shape.modules() || second.module >= shape.modules() {
        return Err(BatchFault::NoModule(t));
    }
    if first.block >= shape.blocks() || second.block >= shape.blocks() {
        return Err(BatchFault::NoBlock(t));
    }
    Ok((thing, after))
}

/// Reads a list: the line that counts its things, then a line for each.
///
/// Gives the things that the text denotes, or the text's first fault. Every module and block has to
/// be one of the shape. Want of memory is answered only where a thing had to be kept. Takes time
/// linear in the length of the text.
pub fn read_list<T: Listed>(alloc: Global, text: &[u8], shape: Shape) -> Result<Vec<T>, BatchFault>
    ensures list { IfOk result (λ things. Denotes T.form shape text.now things.items) }
    ensures fault { IfErr result (ButForMemory (IsFirstFault T.form shape text.now)) }
    ensures memory { IfErr result (ForMemory (NeedsMemory T.form shape text.now)) }
{
    let Some((count, lines)) = first_line::<T>(text) else {
        return Err(BatchFault::Line(1));
    };
    if count > MAX_TRANSFERS {
        return Err(BatchFault::TooMany);
    }
    let mut things = Vec::new(alloc);
    let mut rest = lines;
    for t in 0..count {
        let (thing, after) = next_thing(rest, t, shape)?;
        things.push(thing)?;
        rest = after;
    }
    if !rest.is_empty() {
        return Err(BatchFault::Count);
    }
    Ok(things)
}
