//! The area that status names are laid over.
ghost use Rattle.std.specs.Prelude.{◌≤◌, length};

/// As many bytes of a status name are laid over a status area, and at least as many it has.
pub const MAX_STATUS_LEN: usize = 128;

/// A status area with the room that it needs. It stands beside a peer: packets and a handshake need none.
#[derive(Drop)]
pub struct StatusArea<'a> {
    pub bytes: &'a mut [u8],
    ghost room: { 128 ≤ length bytes.now },
}
