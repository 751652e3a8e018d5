//! What the flushes of a process are counted by.
ghost use Rattle.std.specs.Prelude.{◌≡◌, ℕ, Option, is_some, []};
ghost use Rattle.records.specs.declared.operation.Operation.{Operation};
ghost use Rattle.rules.specs.Stories.{is_listed, is_settled, is_read_out, is_fault, list_counts, exchange_counts, result_counts, open_after, opened, spent};
ghost use Rattle.exchange.specs.Values.{call_of, answer_of};
ghost use Rattle.exchange.specs.Tallies.{Tallies, TalliesOneMore, FlushesBy};

use crate::answer::Answer;
use crate::call::Call;

/// Of the calls on a process since it was started: the lists that answered paths, 7 or 35; the applies and fetches that answered Delayed, 35 or 36; the results that were read to their end or to 37; whether a result is open; and whether a call on it ended in a line fault. The counts stay at 2^64 - 1.
#[derive(Clone, Copy)]
pub struct Tally {
    pub lists: usize,
    pub exchanges: usize,
    pub results: usize,
    pub is_open: bool,
    pub is_faulted: bool,
}

/// How many flushes a process that never had a line fault has given, and how many it was sent. They stay at 2^64 - 1.
#[derive(Clone, Copy)]
pub struct Flushes {
    pub given: usize,
    pub sent: usize,
}

/// Whether a list counts: it answered paths, 7 or 35.
fn is_listed(answer: Answer) -> bool
    ensures { result ≡ is_listed (answer_of answer) }
{
    matches!(
        answer,
        Answer::Paths(_) | Answer::Full(_) | Answer::Failed(_)
    )
}

/// Whether an apply or a fetch counts: it answered Delayed, 35 or 36.
fn is_settled(answer: Answer) -> bool
    ensures { result ≡ is_settled (answer_of answer) }
{
    matches!(
        answer,
        Answer::Delayed | Answer::Failed(_) | Answer::Unasked
    )
}

/// Whether a read counts: it reached the result's end or 37.
fn is_read_out(answer: Answer) -> bool
    ensures { result ≡ is_read_out (answer_of answer) }
{
    matches!(answer, Answer::Finished | Answer::Unfinished(_))
}

/// Whether a call ended in a line fault.
fn is_fault(answer: Answer) -> bool
    ensures { result ≡ is_fault (answer_of answer) }
{
    matches!(answer, Answer::Fault(_))
}

/// How many lists a call counts as.
fn list_counts(call: Call<'_>, answer: Answer) -> usize
    ensures { (rows room : ℕ) → result ≡ list_counts (call_of rows room call.entry) (answer_of answer) }
{
    match call {
        Call::List(_) => usize::from(is_listed(answer)),
        _ => 0,
    }
}

/// How many applies and fetches a call counts as.
fn exchange_counts(call: Call<'_>, answer: Answer) -> usize
    ensures { (rows room : ℕ) → result ≡ exchange_counts (call_of rows room call.entry) (answer_of answer) }
{
    match call {
        Call::Apply(_, _, _) | Call::Fetch(_, _, _) => usize::from(is_settled(answer)),
        _ => 0,
    }
}

/// How many results a call counts as.
fn result_counts(call: Call<'_>, answer: Answer) -> usize
    ensures { (rows room : ℕ) → result ≡ result_counts (call_of rows room call.entry) (answer_of answer) }
{
    match call {
        Call::Read(_) => usize::from(is_read_out(answer)),
        _ => 0,
    }
}

/// Whether a result is open after an apply or a fetch.
fn opened(is_open: bool, answer: Answer) -> bool
    ensures { (op : Operation) (before : Option Operation) → is_open ≡ is_some before → result ≡ is_some (opened op before (answer_of answer)) }
{
    is_open || matches!(answer, Answer::Result(_))
}

/// Whether a result is open after a read: its end, 37 and a line fault spend it.
fn spent(is_open: bool, answer: Answer) -> bool
    ensures { (before : Option Operation) → is_open ≡ is_some before → result ≡ is_some (spent before (answer_of answer)) }
{
    is_open && !is_read_out(answer) && !is_fault(answer)
}

/// Whether a result is open after a call.
fn open_after(is_open: bool, call: Call<'_>, answer: Answer) -> bool
    ensures { (rows room : ℕ) (before : Option Operation) → is_open ≡ is_some before → result ≡ is_some (open_after (call_of rows room call.entry) before (answer_of answer)) }
{
    match call {
        Call::Apply(_, _, _) | Call::Fetch(_, _, _) => opened(is_open, answer),
        Call::Read(_) => spent(is_open, answer),
        _ => is_open,
    }
}

impl Tally {
    /// Nothing has passed yet.
    pub fn none() -> Tally
        ensures { Tallies result [] }
    {
        Tally {
            lists: 0,
            exchanges: 0,
            results: 0,
            is_open: false,
            is_faulted: false,
        }
    }

    /// A call on the process has answered.
    pub fn after(self, call: Call<'_>, answer: Answer) -> Tally
        ensures { (rows room : ℕ) → TalliesOneMore (call_of rows room call.entry) (answer_of answer) self result }
    {
        Tally {
            lists: self.lists.saturating_add(list_counts(call, answer)),
            exchanges: self.exchanges.saturating_add(exchange_counts(call, answer)),
            results: self.results.saturating_add(result_counts(call, answer)),
            is_open: open_after(self.is_open, call, answer),
            is_faulted: is_fault(answer) || self.is_faulted,
        }
    }

    /// The flushes that these counts say.
    pub fn flushes(self) -> Flushes
        ensures { FlushesBy self result }
    {
        let open = usize::from(self.is_open);
        Flushes {
            given: self
                .lists
                .saturating_mul(2)
                .saturating_add(self.exchanges)
                .saturating_add(self.results.saturating_mul(3))
                .saturating_add(open)
                .saturating_add(2),
            sent: self
                .exchanges
                .saturating_add(self.results)
                .saturating_add(open)
                .saturating_mul(2)
                .saturating_add(self.lists)
                .saturating_add(2),
        }
    }
}
