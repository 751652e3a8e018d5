//! The versions that a client offers.
ghost use Rattle.std.specs.Prelude.{◌≡◌, ◌≤◌, [], Some, length};
ghost use Rattle.slices.specs.Answers.{told};
ghost use Rattle.handshake.specs.Judged.{version_in};
ghost use Rattle.handshake.specs.Servers.{objection_number, with_version};

use handshake::inner::keep_version;
use handshake::protocol::Objection;
use slices::rows::Rows;

/// The first `count` places hold versions.
#[derive(Drop)]
pub(crate) struct Offered {
    // Fixed memory: the library allocates nothing.
    versions: [u64; 16],
    count: usize,
    ghost long: { length versions ≡ 16 },
    ghost few: { count ≤ 16 },
}

impl Offered {
    ghost use Rattle.mirror.specs.Memory.{versions_of};

    /// No version.
    pub(crate) fn none() -> Offered
        ensures { versions_of result ≡ [] }
    {
        Offered {
            versions: [0; 16],
            count: 0,
        }
    }

    /// Forgets the versions.
    pub(crate) fn clear(&mut self)
        ensures { versions_of self.new ≡ [] }
    {
        self.count = 0;
    }

    /// The versions, in the order of the offer.
    pub(crate) fn as_slice(&self) -> &[u64]
        ensures { result.now ≡ versions_of self.now }
    {
        &self.versions[0..self.count]
    }

    /// Keeps the version that a line offers.
    pub(crate) fn keep(&mut self, line: &[u8]) -> Result<(), Objection>
        ensures { told (λ _. versions_of self.new) objection_number result ≡ with_version 16 (versions_of self.old) (version_in (Some line.now)) }
    {
        let mut rows = Rows::resume(&mut self.versions, self.count);
        let kept = keep_version(&mut rows, line);
        self.count = rows.len();
        kept
    }
}
