//! The head of a record.

ghost use Rattle.std.specs.Prelude.{◌≡◌, ◌≢◌, ◌↔◌, ◌++◌, ◌∷◌, All, List, ℕ, codes, length, map};
ghost use Rattle.std.specs.Prelude.{IfOk, IfSome, IfNone, IsTrue, OnOk};
ghost use Rattle.std.specs.List.{flat_map};
ghost use Rattle.batch.specs.ShapeView.{IsShape};
ghost use Rattle.batch.specs.Text.{IsNumber, line_feed};
ghost use Rattle.line_words.specs.HexWords.{IsWord};
ghost use Rattle.book_record.specs.Heads.{AreClients, AreNames, BeginsWithNoClient};
ghost use Rattle.book_record.specs.Heads.{BeginsWithNoHead, BeginsWithNoNames, IsName};
ghost use Rattle.book_record.specs.Heads.{IsNoRackLine, client_line, rack_line, rack_words};
ghost use Rattle.book_record.specs.Heads.{head_of, session_limit};

use crate::sum::{after_sum, sum_at};
use crate::writing::push_sum_of;
use batch::{Shape, number_from_digits, position_of};
use exchange_limits::MAX_SESSIONS;
use line_words::{Line, hex8_and_rest, rest_after};
use std::alloc::{AllocError, Global};

/// The first line of a record: the shape of its rack, the sum of the image of its opening words,
/// and the number of clients that have names.
pub fn rack_line(shape: Shape, sum: u32, names: usize) -> Line
    requires { IsNumber names }
    ensures { result ≡ rack_line shape sum names }
{
    let mut line = Line::new();
    line.put(b"record-2 ");
    line.put_number(shape.modules() as u64);
    line.put(b"x");
    line.put_number(shape.blocks() as u64);
    line.put(b"x");
    line.put_number(shape.words() as u64);
    line.put(b" ");
    line.put_hex8(sum);
    line.put(b" ");
    line.put_number(names as u64);
    line.put(b"\n");
    line
}

/// Puts the line of a client that has this name.
fn push_client(text: &mut Vec<u8>, name: &[u8]) -> Result<(), AllocError>
    ensures { OnOk result (text.new.items ≡ text.old.items ++ client_line name.now) }
{
    text.extend_from_slice(b"client ")?;
    text.extend_from_slice(name)?;
    text.push(b'\n')?;
    Ok(())
}

/// The head of a record: the shape of its rack, the sum of the image of its opening words, the
/// names of the clients, in the order of their sessions, and the sum of these lines. It takes
/// memory by the names.
pub fn head_text(
    alloc: Global,
    shape: Shape,
    sum: u32,
    names: &[&[u8]],
) -> Result<Vec<u8>, AllocError>
    requires { IsNumber (length names.now) }
    ensures { IfOk result (λ text.
        text.items ≡ head_of shape sum (map (λ n. n.now) names.now)) }
{
    let mut text = Vec::from_slice(alloc, rack_line(shape, sum, names.len()).as_bytes())?;
    for name in names {
        push_client(&mut text, name)?;
    }
    push_sum_of(&mut text, 0, 0)?;
    Ok(text)
}

/// The shape, the sum and the number of names of the first line of a record.
fn read_rack_line(line: &[u8]) -> Option<(Shape, u32, usize)>
    ensures fits { IfSome result (λ x. IsShape x.0 × IsWord x.1 × IsNumber x.2) }
    ensures some { IfSome result (λ x. line.now ≡ rack_words x.0 x.1 x.2) }
    ensures none { IfNone result (IsNoRackLine line.now) }
{
    let rest = rest_after(line, b"record-2 ")?;
    let end = position_of(rest, b' ')?;
    let shape = match Shape::read(&rest[..end]) {
        Ok(shape) => shape,
        Err(_) => return None,
    };
    let (sum, digits) = hex8_and_rest(&rest[end + 1..])?;
    let names = number_from_digits(digits)?;
    Some((shape, sum, names))
}

/// The name of the client with whose line the text begins, and the rest.
fn client_and_rest(text: &[u8]) -> Option<(&[u8], &[u8])>
    ensures some { IfSome result (λ x. IsName x.0.now
        × (text.now ≡ codes "client " ++ (x.0.now ++ line_feed ∷ x.1.now))) }
    ensures none { IfNone result (BeginsWithNoClient text.now) }
{
    let rest = rest_after(text, b"client ")?;
    let end = position_of(rest, b'\n')?;
    if end == 0 {
        return None;
    }
    Some((&rest[..end], &rest[end + 1..]))
}

/// Whether none of the first clients, with whose lines the text begins, has this name.
fn is_new(text: &[u8], clients: usize, name: &[u8]) -> bool
    ensures { (names : List (List ℕ)) → (rest : List ℕ) → length names ≡ clients
        → AreClients text.now names rest
        → IsTrue result ↔ All (λ other. other ≢ name.now) names }
{
    let mut rest = text;
    for seen in 0..clients {
        let Some((other, left)) = client_and_rest(rest) else {
            return true;
        };
        if other == name {
            return false;
        }
        rest = left;
    }
    true
}

/// What follows the lines of this many clients.
fn after_clients(text: &[u8], names: usize) -> Option<&[u8]>
    ensures some { IfSome result (λ rest. (all : List (List ℕ)) × AreNames all names
        × (text.now ≡ flat_map client_line all ++ rest.now)) }
    ensures none { IfNone result (BeginsWithNoNames text.now names) }
{
    if names > MAX_SESSIONS {
        return None;
    }
    let mut rest = text;
    for read in 0..names {
        let (name, left) = client_and_rest(rest)?;
        if !is_new(text, read, name) {
            return None;
        }
        rest = left;
    }
    Some(rest)
}

/// The shape, the sum and the number of clients of a head whose first line has these numbers, and
/// what follows the sum of its lines.
fn whole_head<'a>(
    text: &[u8],
    shape: Shape,
    sum: u32,
    names: usize,
    rest: &'a [u8],
) -> Option<(Shape, u32, usize, &'a [u8])>
    requires shape { IsShape shape }
    requires sum { IsWord sum }
    requires names { IsNumber names }
    requires line { text.now ≡ rack_line shape sum names ++ rest.now }
    ensures some { IfSome result (λ x. IsShape x.0 × IsWord x.1
        × ((names : List (List ℕ)) × AreNames names x.2
        × (text.now ≡ head_of x.0 x.1 names ++ x.3.now))) }
    ensures none { IfNone result (BeginsWithNoHead text.now) }
{
    let after = after_clients(rest, names)?;
    let lines = &text[..text.len().saturating_sub(after.len())];
    let body = after_sum(after, sum_at(0, lines))?;
    Some((shape, sum, names, body))
}

/// The shape and the sum of the head of a record, the number of clients it names, and the rest.
pub fn read_head(text: &[u8]) -> Option<(Shape, u32, usize, &[u8])>
    ensures some { IfSome result (λ x. IsShape x.0 × IsWord x.1
        × ((names : List (List ℕ)) × AreNames names x.2
        × (text.now ≡ head_of x.0 x.1 names ++ x.3.now))) }
    ensures none { IfNone result (BeginsWithNoHead text.now) }
{
    let end = position_of(text, b'\n')?;
    let (shape, sum, names) = read_rack_line(&text[..end])?;
    whole_head(text, shape, sum, names, &text[end + 1..])
}

/// The number below which all sessions of a record are whose head names this many clients.
pub fn session_limit(clients: usize) -> usize
    ensures { result ≡ session_limit clients }
{
    match clients {
        0 => 1_000_000_000,
        _ => clients,
    }
}
