//! A request's content, as far as it came and is to be given back.
ghost use Rattle.std.specs.Prelude.{◌≡◌, ◌≤◌, [], cond, length, IfSome, Some, None};
ghost use Rattle.std.specs.Option.{option_map};
ghost use Rattle.std.proofs.Props.{props};

/// The most content that is given back.
pub const MAX_CONTENT: usize = 4096;

/// The first `len` bytes are the content; there is no length where none is to be given back.
#[derive(Drop)]
pub(crate) struct Content {
    // Fixed memory: the library allocates nothing.
    bytes: [u8; 4096],
    len: Option<usize>,
    ghost long: { length bytes ≡ 4096 },
    ghost fits: { IfSome len (λ n. n ≤ 4096) } by { Prim.hlevel props },
}

impl Content {
    ghost use Rattle.mirror.specs.Memory.{content_of};
    ghost use Rattle.mirror.specs.Reflecting.{with_payload};

    /// None is to be given back.
    pub(crate) fn none() -> Content {
        Content {
            bytes: [0; 4096],
            len: None,
        }
    }

    /// Begins anew, with what is to be given back or not.
    pub(crate) fn begin(&mut self, given_back: bool)
        ensures { content_of self.new ≡ cond given_back (Some []) None }
    {
        self.len = if given_back { Some(0) } else { None };
    }

    /// Adds a payload. Where that is too much, nothing is to be given back any more.
    pub(crate) fn add(&mut self, payload: &[u8])
        ensures { content_of self.new ≡ with_payload (content_of self.old) payload.now }
    {
        let Some(at) = self.len else {
            return;
        };
        if payload.len() > MAX_CONTENT - at {
            self.len = None;
            return;
        }
        let end = at + payload.len();
        self.bytes[at..end].copy_from_slice(payload);
        self.len = Some(end);
    }

    /// The content.
    pub(crate) fn get(&self) -> Option<&[u8]>
        ensures value { option_map (λ x. x.now) result ≡ content_of self.now }
        ensures fits { IfSome result (λ x. length x.now ≤ 4096) }
    {
        let len = self.len?;
        Some(&self.bytes[0..len])
    }
}
