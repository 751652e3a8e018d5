//! The results that an exchange left open.
ghost use Rattle.std.specs.Prelude.{◌≡◌, ◌≤◌, length};

use driver::inner::result_of;
use driver::result::FilterResult;
use driver::state::State;

/// Results that wait to be read, by the numbers of their processes. They are taken out one by one, each to be read or given up.
// No `Drop`, as for a result itself.
pub struct OpenResults {
    processes: [usize; 8],
    count: usize,
    ghost room: { length processes ≡ 8 },
    ghost fits: { count ≤ 8 },
}

/// One of the open results, and the others; or none is left.
pub enum Next {
    Open(FilterResult, OpenResults),
    None,
}

impl OpenResults {
    ghost use Rattle.exchange.specs.Opens.{read_from, open_processes, TakesOut};

    /// The results that a table's records are reading.
    pub(crate) fn of(table: &State) -> OpenResults
        ensures { open_processes result ≡ read_from table.now.records.places }
    {
        let mut processes = [0usize; 8];
        let mut count = 0;
        for place in 0..8 {
            if let Some(record) = table.records().get(place) {
                if record.reading.is_some() {
                    processes[count] = record.process;
                    count += 1;
                }
            }
        }
        OpenResults { processes, count }
    }

    /// How many there are.
    pub fn len(&self) -> usize
        ensures { result ≡ length (open_processes self.now) }
    {
        self.count
    }

    /// Takes one out.
    pub fn next(self) -> Next
        ensures { TakesOut self result }
    {
        let OpenResults { processes, count } = self;
        if count == 0 {
            return Next::None;
        }
        let process = processes[count - 1];
        Next::Open(
            result_of(process),
            OpenResults {
                processes,
                count: count - 1,
            },
        )
    }
}
