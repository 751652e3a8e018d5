//! Lines by their prefix.
ghost use Rattle.std.specs.Prelude.{◌≡◌, ◌++◌, MatchOption};
ghost use Rattle.std.specs.Option.{option_map};
ghost use Rattle.packetline.specs.Lines.{IsLine, NotAfter, after_prefix, kind_of, line_kind};

/// A line with the part after its prefix. Another line is whole.
#[derive(Clone, Copy)]
pub enum Line<'a> {
    Status(&'a [u8]),
    Capability(&'a [u8]),
    Version(&'a [u8]),
    Pathname(&'a [u8]),
    Other(&'a [u8]),
}

/// The part of a payload after a prefix.
pub fn after<'a>(prefix: &[u8], payload: &'a [u8]) -> Option<&'a [u8]>
    ensures value { option_map (λ x. x.now) result ≡ after_prefix prefix.now payload.now }
    ensures law { MatchOption result (NotAfter payload.now prefix.now) (λ part. payload.now ≡ prefix.now ++ part.now) }
{
    payload.strip_prefix(prefix)
}

impl<'a> Line<'a> {
    /// The line that a payload holds.
    // A name that users call: a `From` beside it would be a second one.
    pub fn read(payload: &'a [u8]) -> Line<'a>
        ensures value { line_kind result ≡ kind_of payload.now }
        ensures law { IsLine payload.now (line_kind result) }
    {
        // One `if` for each kind, as the specs read it; a chain of `or_else` needs a closure for each and is no shorter.
        if let Some(part) = after(b"status=", payload) {
            return Line::Status(part);
        }
        if let Some(part) = after(b"capability=", payload) {
            return Line::Capability(part);
        }
        if let Some(part) = after(b"version=", payload) {
            return Line::Version(part);
        }
        if let Some(part) = after(b"pathname=", payload) {
            return Line::Pathname(part);
        }
        Line::Other(payload)
    }
}
