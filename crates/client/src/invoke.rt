//! A command with its metadata.
ghost use Rattle.std.specs.Prelude.{◌≡◌, ◌∷◌, ◌++◌};
ghost use Rattle.std.specs.List.{list_all};
ghost use Rattle.packetline.specs.Packets.{line_pkt, sendable, all_sendable};
ghost use Rattle.client.specs.Requests.{meta_line, request};

use packetline::encode::MAX_DATA_LEN;

/// One line of metadata, `key=value`.
#[derive(Clone, Copy)]
pub struct Meta<'a> {
    pub key: &'a [u8],
    pub value: &'a [u8],
}

/// Whether the line `key=value` can be sent.
fn is_sendable(key: &[u8], value: &[u8]) -> bool
    ensures { result ≡ sendable (line_pkt (key.now ++ 61 ∷ value.now)) }
{
    key.len() + 1 + value.len() <= MAX_DATA_LEN
}

impl Meta<'_> {
    /// Whether the line can be sent.
    fn is_sendable(&self) -> bool
        ensures { result ≡ sendable (meta_line self.now) }
    {
        is_sendable(self.key, self.value)
    }
}

/// Whether each line of metadata can be sent.
fn are_all_sendable(meta: &[Meta<'_>]) -> bool
    ensures { result ≡ list_all (λ m. sendable (meta_line m)) meta.now }
{
    meta.iter().all(|row| row.is_sendable())
}

/// Whether a command's lines can be sent.
pub fn are_sendable(command: &[u8], meta: &[Meta<'_>]) -> bool
    ensures { result ≡ all_sendable (request command.now meta.now) }
{
    is_sendable(b"command", command) && are_all_sendable(meta)
}
