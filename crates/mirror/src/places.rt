//! The seats by their place.
ghost use Rattle.std.specs.Prelude.{◌≡◌, ◌<◌, ◌≤◌, false, length, slice_index_or};
ghost use Rattle.mirror.specs.declared.seat.Seat.{Seat};
ghost use Rattle.mirror.specs.Memory.{prefix_of};
ghost use Rattle.mirror.specs.Seats.{Fresh, Sends, AtSeat, TakesAt};

use crate::house::House;
use crate::seat::Seat;

// Functions over the slice of seats: the loan of one element of an array behind a `&mut` is not covered where the struct has ghost fields.
/// Starts the process of a seat.
pub(crate) fn start_at(seats: &mut [Seat], at: usize)
    requires { at < length seats.old }
    ensures { AtSeat (λ _ s. Fresh s) seats.old at seats.new }
{
    seats[at].start();
}

/// Ends the process of a seat.
pub(crate) fn end_at(seats: &mut [Seat], at: usize)
    requires { at < length seats.old }
    ensures { AtSeat (λ _ s. s.is_open ≡ false) seats.old at seats.new }
{
    seats[at].end();
}

/// Receives from the process of a seat.
pub(crate) fn receive_at(seats: &mut [Seat], at: usize, area: &mut [u8]) -> usize
    requires { at < length seats.old }
    ensures { TakesAt seats.old at area.old result seats.new area.new }
{
    seats[at].receive(area)
}

/// Sends to the process of a seat bytes that are within its allowance.
pub(crate) fn send_at(seats: &mut [Seat], at: usize, house: &House, bytes: &[u8])
    requires place { at < length seats.old }
    requires within { (d : Seat) → length bytes.now ≤ (slice_index_or seats.old at d).allowance }
    ensures { AtSeat (λ s t. Sends (prefix_of house.now) house.now.names s bytes.now t) seats.old at seats.new }
{
    seats[at].send(house, bytes);
}
