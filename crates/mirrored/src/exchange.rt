//! A client that exchanges content with a process of a mirror.
ghost use Rattle.std.specs.Prelude.{◌≡◌, ℕ, List};
ghost use Rattle.slices.specs.Answers.{told};
ghost use Rattle.client.specs.Requests.{request};
ghost use Rattle.client.specs.Results.{piece_of};
ghost use Rattle.mirror.specs.Worlds.{world_of};
ghost use Rattle.mirrored.specs.Exchanged.{asked_lines, Asks, Takes};

use client::client::Client;
use client::invoke::Meta;
use client::result::Output;
use host::call::AreaError;
use host::sending::SendError;
use mirror::mirror::Mirror;
use process::status::Status;

/// The same with lines of metadata.
// Apart, so that its promise can speak of the lines.
fn ask_with(
    mirror: &mut Mirror,
    client: Client,
    work: &mut [u8],
    status: &mut [u8],
    command: &[u8],
    meta: &[Meta<'_>],
    content: &[u8],
) -> Result<Status, SendError>
    ensures { (pathname : List ℕ) → request command.now meta.now ≡ asked_lines command.now pathname → Asks (world_of mirror.old) client.process work.old status.old command.now pathname content.now result (world_of mirror.new) }
{
    client.invoke(mirror, work, status, command, meta, content)
}

/// Sends a command for one pathname, with its content, and reads the status that the process answers.
pub fn ask(
    mirror: &mut Mirror,
    client: Client,
    work: &mut [u8],
    status: &mut [u8],
    command: &[u8],
    pathname: &[u8],
    content: &[u8],
) -> Result<Status, SendError>
    ensures { Asks (world_of mirror.old) client.process work.old status.old command.now pathname.now content.now result (world_of mirror.new) }
{
    let meta = [Meta {
        key: b"pathname",
        value: pathname,
    }];
    ask_with(mirror, client, work, status, command, &meta, content)
}

/// Reads a piece of what the process gives back: content, or the final status.
pub fn take(
    mirror: &mut Mirror,
    client: Client,
    work: &mut [u8],
    status: &mut [u8],
) -> Result<Output, AreaError>
    ensures { Takes (world_of mirror.old) client.process work.old status.old (told (piece_of work.new) (λ e. e) result) (world_of mirror.new) }
{
    client.read(mirror, work, status)
}
