//! One process of a host, with the work area that its packets pass through.
ghost use Rattle.std.specs.Prelude.{◌≤◌, length};

/// A process, the host that it runs under, and a work area with room for the longest packet.
#[derive(Drop)]
pub struct Peer<'a, H> {
    pub host: &'a mut H,
    pub process: usize,
    pub work: &'a mut [u8],
    ghost room: { 65520 ≤ length work.now },
}
