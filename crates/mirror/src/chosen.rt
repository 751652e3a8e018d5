//! A handshake in which a version was chosen.
ghost use Rattle.std.specs.Prelude.{◌≡◌, [], length};
ghost use Rattle.packetline.specs.Lines.{kind_of};
ghost use Rattle.handshake.specs.Judged.{capability_in};
ghost use Rattle.handshake.specs.Places.{AllWithin};
ghost use Rattle.handshake.specs.Servers.{with_shared};
ghost use Rattle.handshake.specs.Sharing.{places_of};

use handshake::inner::with_line;
use handshake::shared::Shared;
use slices::name::Name;

/// The version, and the names that are shared so far, of two.
#[derive(Clone, Copy)]
pub(crate) struct Chosen {
    pub(crate) version: u64,
    pub(crate) shared: Shared,
    pub ghost inside: { AllWithin 2 (places_of shared) },
}

impl Chosen {
    /// No name is shared yet.
    pub(crate) fn new(version: u64) -> Chosen
        ensures version { result.version ≡ version }
        ensures shared { places_of result.shared ≡ [] }
    {
        Chosen {
            version,
            shared: Shared::none(),
        }
    }

    /// With the name that a line names.
    pub(crate) fn with_line(self, line: &[u8], names: &[Name]) -> Chosen
        requires { length names.now ≡ 2 }
        ensures version { result.version ≡ self.version }
        ensures shared { places_of result.shared ≡ with_shared names.now (places_of self.shared) (capability_in (kind_of line.now)) }
    {
        Chosen {
            version: self.version,
            shared: with_line(self.shared, line, names),
        }
    }
}
