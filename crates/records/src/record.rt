//! A record of a table.
ghost use Rattle.std.specs.Prelude.{◌≡◌};

use crate::key::Key;
use crate::operation::Operation;
use process::capabilities::Capabilities;

/// What a table knows of a process that it started.
#[derive(Clone, Copy)]
pub struct Record {
    pub key: Key,
    /// The host's number of the process.
    pub process: usize,
    pub version: u64,
    pub capabilities: Capabilities,
    /// The operation whose result is being read.
    pub reading: Option<Operation>,
}

impl Record {
    ghost use Rattle.records.specs.Records.{with_reading, with_capabilities};

    /// A record with this key, to look for another one.
    pub(crate) fn probe(key: Key) -> Record
        ensures { result.key ≡ key }
    {
        Record {
            key,
            process: 0,
            version: 0,
            capabilities: Capabilities::none(),
            reading: None,
        }
    }

    /// Reading for an operation, or no more.
    pub(crate) fn with_reading(self, reading: Option<Operation>) -> Record
        ensures { result ≡ with_reading reading self }
    {
        Record { reading, ..self }
    }

    /// Of a process that can do this.
    pub(crate) fn with_capabilities(self, capabilities: Capabilities) -> Record
        ensures { result ≡ with_capabilities capabilities self }
    {
        Record {
            capabilities,
            ..self
        }
    }
}

/// Two records are the same where their keys are: a table finds a record by its key.
impl PartialEq for Record {
    ghost use Rattle.std.specs.Cmp.Rules.{comparing};
    ghost use Rattle.std.proofs.Common.{rules};
    ghost use Rattle.records.specs.Places.{same_record};

    ghost eq = { same_record };

    ghost laws = { Prim.search (comparing, rules) };

    fn eq(&self, other: &Record) -> bool {
        self.key == other.key
    }
}

impl Eq for Record {
    ghost use Rattle.std.specs.Cmp.Rules.{comparing};
    ghost use Rattle.std.proofs.Common.{rules};
    ghost use Rattle.records.specs.Places.{same_record};

    ghost laws = { Prim.search (comparing, rules) };
}
