//! What this crate lends the next: a text laid at the start of its room.
ghost use Rattle.std.specs.Prelude.{◌≡◌, ◌≤◌, length};
ghost use Rattle.slices.specs.Padding.{padded_bytes};

use crate::padded::Padded;

/// The text at the start of a room of N bytes.
pub fn padded<const N: usize>(text: &[u8]) -> Padded<N>
    requires { length text.now ≤ N }
    ensures { padded_bytes result ≡ text.now }
{
    let len = text.len();
    let mut bytes = [0u8; N];
    let room = &mut bytes[..];
    room[0..len].copy_from_slice(text);
    Padded { bytes, len }
}
