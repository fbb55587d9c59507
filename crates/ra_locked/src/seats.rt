//! Seats that are not spent.
ghost use Rattle.std.specs.Prelude.{◌≡◌, ◌<◌, ◌+◌, position, true, false};
ghost use Rattle.ra_base.specs.declared.key.Seat.{Seat};
ghost use Rattle.ra_registry.specs.Rows as keys;
ghost use Rattle.ra_locked.specs.SeatLists.{seats_in, same_seat, TakesOne};

use ra_base::{Key, Seat};
use std::cmp::Ordering;

/// The same seat again.
pub(crate) fn same_seat(seat: &Seat) -> Seat
    ensures { result ≡ seat.now }
{
    Seat {
        key: seat.key.same(),
        epoch: seat.epoch,
    }
}

/// Whether two seats are of one key and epoch.
pub(crate) fn is_same(a: &Seat, b: &Seat) -> bool
    ensures { result ≡ same_seat a.now b.now }
{
    same_key(&a.key, &b.key) && a.epoch == b.epoch
}

/// Whether two keys are equal.
fn same_key(a: &Key, b: &Key) -> bool
    ensures { result ≡ keys.same_key a.now b.now }
{
    match a.cmp(b) {
        Ordering::Equal => true,
        Ordering::Less | Ordering::Greater => false,
    }
}

/// The place of a seat.
fn find_seat(seats: &[Seat], seat: &Seat) -> Option<usize>
    ensures { result ≡ position (λ other. same_seat seat.now other) seats.now }
{
    seats.iter().position(|other| is_same(seat, other))
}

/// Takes a seat out, where it is there.
pub(crate) fn take_seat(seats: &mut Vec<Seat>, seat: &Seat) -> bool
    ensures left { result ≡ true → TakesOne seat.now seats.old.items seats.new.items }
    ensures there { result ≡ true → 0 < seats_in seat.now seats.old.items }
    ensures none { result ≡ false → seats_in seat.now seats.old.items ≡ 0 }
    ensures same { result ≡ false → seats.new ≡ seats.old }
{
    let Some(at) = find_seat(seats.as_slice(), seat) else {
        return false;
    };
    seats.remove(at);
    true
}
