//! A client that shakes hands with a process of a mirror.
ghost use Rattle.std.specs.Prelude.{◌≡◌};
ghost use Rattle.mirror.specs.Worlds.{world_of};
ghost use Rattle.mirrored.specs.Greeted.{Greets};

use crate::wanted::Wanted;
use client::client::Client;
use client::greeting::GreetingError;
use mirror::mirror::Mirror;

/// Shakes hands with a process of a mirror, offers version 2, and desires to clean, to smudge, and to delay.
pub fn greet(mirror: &mut Mirror, process: usize, work: &mut [u8]) -> Result<Client, GreetingError>
    ensures { Greets (world_of mirror.old) process work.old result (world_of mirror.new) }
{
    let wanted = Wanted::new();
    Client::handshake(mirror, process, work, &wanted.prefix, &[2], &wanted.names)
}
