//! Walks from partner to partner.

ghost use Rattle.std.specs.Prelude.{◌≡◌, ℕ, ◌+◌, ◌<◌, length, None, IfSome};
ghost use Rattle.euler_split.specs.Pairs.{ArePartners};
ghost use Rattle.euler_split.specs.Walks.{partner_at, half_at, IsWalk, IsClosed, IsHalved, Keeps};

use link_graph::End;

/// The partner of a place at an end.
fn partner_at(zero: &[Option<u16>], three: &[Option<u16>], end: End, place: usize) -> Option<usize>
    requires within { place < length zero.now }
    requires sized { length three.now ≡ length zero.now }
    requires zero_pairs { ArePartners zero.now }
    requires three_pairs { ArePartners three.now }
    ensures partner { result ≡ partner_at zero.now three.now end place }
    ensures within { IfSome result (λ next. next < length zero.now) }
{
    let partner = match end {
        End::Zero => zero[place],
        End::Three => three[place],
    };
    Some(usize::from(partner?))
}

/// Puts places into the two halves in turn, from `start` on, which it leaves by the end `first`.
fn walk(
    zero: &[Option<u16>],
    three: &[Option<u16>],
    halves: &mut [Option<bool>],
    start: usize,
    first: End,
)
    requires start_in { start < length halves.old }
    requires zero_sized { length zero.now ≡ length halves.old }
    requires three_sized { length three.now ≡ length halves.old }
    requires zero_pairs { ArePartners zero.now }
    requires three_pairs { ArePartners three.now }
    requires begun { IsWalk zero.now three.now start first halves.old start first }
    ensures closed { IsClosed zero.now three.now start first halves.new }
    ensures keeps { Keeps halves.old halves.new }
{
    let mut place = start;
    let mut end = first;
    let mut half = true;
    'places: while let Some(next) = partner_at(zero, three, end, place) {
        if halves[next].is_some() {
            return;
        }
        half = !half;
        halves[next] = Some(half);
        place = next;
        end = end.other();
    }
}

/// Puts the place `start` into a half, and with it all places that walks from there meet.
fn begin(zero: &[Option<u16>], three: &[Option<u16>], halves: &mut [Option<bool>], start: usize)
    requires start_in { start < length halves.old }
    requires sized { length three.now ≡ length zero.now }
    requires zero_pairs { ArePartners zero.now }
    requires three_pairs { ArePartners three.now }
    requires so_far { IsHalved zero.now three.now start halves.old }
    ensures { IsHalved zero.now three.now (start + 1) halves.new }
{
    if halves[start].is_some() {
        return;
    }
    halves[start] = Some(true);
    walk(zero, three, halves, start, End::Three);
    walk(zero, three, halves, start, End::Zero);
}

/// Puts every place into a half, so that no two partners are in one: neither the partners at one
/// end nor those at the other. Takes time that grows with the number of places, and no memory.
pub fn halve(zero: &[Option<u16>], three: &[Option<u16>], halves: &mut [Option<bool>])
    requires zero_sized { length zero.now ≡ length halves.old }
    requires three_sized { length three.now ≡ length halves.old }
    requires zero_pairs { ArePartners zero.now }
    requires three_pairs { ArePartners three.now }
    requires none_yet { (place : ℕ) → half_at halves.old place ≡ None }
    ensures { IsHalved zero.now three.now (length zero.now) halves.new }
{
    for start in 0..halves.len() {
        begin(zero, three, halves, start);
    }
}
