//! What a process is told of the content that it is given.
ghost use Rattle.std.specs.Prelude.{◌≡◌, Decides};
ghost use Rattle.records.specs.Limits.{is_path, is_ref_name, IsPath, IsRefName};

use crate::id::ObjectId;

/// Whether a process may answer later.
#[derive(Clone, Copy, Debug)]
pub enum Delay {
    Allow,
    Forbid,
}

/// The path of a file, and what else is known of where its content comes from.
#[derive(Clone, Copy)]
pub struct Context<'a> {
    /// The path in its repository, with slashes.
    pub rela_path: &'a [u8],
    /// The name of the reference that is checked out.
    pub ref_name: Option<&'a [u8]>,
    /// The tree or commit that the file belongs to.
    pub treeish: Option<ObjectId>,
    /// The blob that has the content.
    pub blob: Option<ObjectId>,
}

/// Whether `path` may be the path of a file.
pub fn is_path(path: &[u8]) -> bool
    ensures value { result ≡ is_path path.now }
    ensures law { Decides result (IsPath path.now) }
{
    (1..=4096).contains(&path.len())
}

/// Whether `name` may be the name of a reference.
pub fn is_ref_name(name: &[u8]) -> bool
    ensures value { result ≡ is_ref_name name.now }
    ensures law { Decides result (IsRefName name.now) }
{
    (1..=1024).contains(&name.len())
}

impl Context<'_> {
    ghost use Rattle.records.specs.Contexts.{is_context, IsContext};

    /// Whether its path, and the name of its reference if it has one, are within their limits.
    pub fn is_within_limits(&self) -> bool
        ensures value { result ≡ is_context self.now }
        ensures law { Decides result (IsContext self.now) }
    {
        is_path(self.rela_path) && self.ref_name.map_or(true, is_ref_name)
    }
}
