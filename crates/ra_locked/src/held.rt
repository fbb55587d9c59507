//! The seats of one caller that are not spent.
ghost use Rattle.std.specs.Prelude.{◌≡◌, ◌<◌, ◌+◌, position, is_some, true, length, vec_len};
ghost use Rattle.std.specs.Vec.{vec_capacity};
ghost use Rattle.ra_base.specs.declared.key.Seat.{Seat};
ghost use Rattle.ra_locked.specs.SeatLists.{same_seat};
ghost use Rattle.ra_locked.specs.HandleSeats.{held_of, attached_of, Less};

use crate::seats::is_same;
use ra_base::Seat;

/// A seat that is not spent, and its session.
#[derive(Drop)]
pub struct HeldSeat<X> {
    pub seat: Seat,
    pub session: X,
    /// Whether an `attach` with this seat was Ok.
    pub attached: bool,
}

/// The place of a seat.
pub(crate) fn find<X>(held: &[HeldSeat<X>], seat: &Seat) -> Option<usize>
    ensures { result ≡ position (λ h. same_seat seat.now h.seat) held.now }
{
    held.iter().position(|h| is_same(seat, &h.seat))
}

/// The place of a seat that is there.
pub fn place_of<X>(held: &[HeldSeat<X>], seat: &Seat) -> usize
    requires { 0 < held_of seat.now held.now }
    ensures { result < length held.now }
{
    match find(held, seat) {
        Some(at) => at,
        None => unreachable!(),
    }
}

/// Whether an `attach` with this seat was Ok.
pub fn is_attached<X>(held: &[HeldSeat<X>], seat: &Seat) -> bool
    ensures { result ≡ attached_of seat.now held.now }
{
    held.iter().any(|h| is_same(seat, &h.seat) && h.attached)
}

/// Notes that an `attach` with this seat, which is there, was Ok.
pub fn set_attached<X>(held: &mut [HeldSeat<X>], seat: &Seat)
    requires { 0 < held_of seat.now held.old }
    ensures attached { attached_of seat.now held.new ≡ true }
    ensures stay { (other : Seat) → held_of other held.new ≡ held_of other held.old }
    ensures len { length held.new ≡ length held.old }
{
    match find(held, seat) {
        Some(at) => held[at].attached = true,
        None => unreachable!(),
    }
}

/// Takes a seat out, where it is there.
pub(crate) fn take_held<X: Drop>(held: &mut Vec<HeldSeat<X>>, seat: &Seat) -> Option<HeldSeat<X>>
    ensures there { 0 < held_of seat.now held.old.items → is_some result ≡ true }
    ensures less { is_some result ≡ true → Less seat.now held.old.items held.new.items }
    ensures len { is_some result ≡ true → vec_len held.new + 1 ≡ vec_len held.old }
{
    let at = find(held.as_slice(), seat)?;
    Some(held.remove(at))
}
