//! A call of a table, as a value.
use records::context::{Context, Delay};
use records::key::Key;
use records::operation::Operation;

/// What an apply asks for: what the content is, whether the process may answer later, and the content.
#[derive(Clone, Copy)]
pub struct Asked<'a> {
    pub context: Context<'a>,
    pub delay: Delay,
    pub content: &'a [u8],
}

/// A call with what its caller says in it; results are named by the numbers of their processes.
#[derive(Clone, Copy)]
pub enum Call<'a> {
    Apply(Key, Operation, Asked<'a>),
    /// What was delayed, by its path.
    Fetch(Key, Operation, &'a [u8]),
    List(Key),
    Read(usize),
    GiveUp(usize),
    CloseAll,
}

/// A call, and what it answered once it was worked off.
#[derive(Clone, Copy)]
pub struct Entry<'a> {
    pub call: Call<'a>,
    pub answer: Option<crate::answer::Answer>,
}
