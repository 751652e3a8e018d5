//! A text at the start of a room of fixed size, as a plain value.
ghost use Rattle.std.specs.Prelude.{◌≡◌, ◌≤◌, length};

/// A text of at most N bytes: the first `len` of `bytes`.
#[derive(Clone, Copy)]
pub struct Padded<const N: usize> {
    // Fixed memory: a text is a plain value, and the library allocates nothing.
    pub(crate) bytes: [u8; N],
    pub(crate) len: usize,
    ghost room: { length bytes ≡ N },
    ghost fits: { len ≤ N },
}
