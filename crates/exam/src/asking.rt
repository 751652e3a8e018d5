//! A client's calls over a host that is traced, and their answers in words.
use crate::lines::items;
use crate::listing::{Quoted, shown};
use crate::refusals::{Answer, Stopped, refused};
use crate::sheet::{ClientCall, Pair};
use crate::stage::Stage;
use client::client::Client;
use client::invoke::Meta;
use client::listing::ListFault;
use client::paths::PathRow;
use client::result::Output;
use host::call::CallError;
use host::host::Host;
use process::area::MAX_STATUS_LEN;
use process::capabilities::Capabilities;
use process::status::{Status, Word};
use recording::show::Escaped;
use slices::name::Name;
use std::alloc::{AllocError, Global};
use std::fmt;
use std::mem::replace;

/// A client of a process, whether hands were shaken with it or not.
fn client_of(process: usize) -> Client {
    Client {
        process,
        version: 0,
        capabilities: Capabilities::none(),
    }
}

/// The names that a process may name, if all are names.
fn desired(heap: Global, list: &[u8]) -> Result<Vec<Name>, Stopped> {
    items(heap, list)?
        .iter()
        .map(|item| Name::new(item).map_err(refused))
        .try_collect(heap)
}

/// Those of the names that a process named.
#[derive(Clone, Copy)]
pub(crate) struct Named<'a> {
    pub(crate) capabilities: Capabilities,
    pub(crate) names: &'a [Name],
}

impl fmt::Display for Named<'_> {
    fn fmt<W: fmt::Write>(&self, f: &mut fmt::Formatter<W>) -> fmt::Result {
        if self.capabilities.mask == 0 {
            return f.write_str("none");
        }
        let mut gap = "";
        for (k, name) in self.names.iter().enumerate() {
            if self.capabilities.contains(k) {
                write!(f, "{gap}{}", Escaped(name.as_bytes()))?;
                gap = " ";
            }
        }
        Ok(())
    }
}

/// The rows that an exchange sends.
fn meta(heap: Global, pairs: &[Pair]) -> Result<Vec<Meta<'_>>, AllocError> {
    pairs
        .iter()
        .map(|pair| Meta {
            key: pair.key.as_slice(),
            value: pair.value.as_slice(),
        })
        .collect(heap)
}

/// A status, whose name lies at the front of the area.
#[derive(Clone, Copy)]
pub(crate) struct Said<'a> {
    pub(crate) status: Status,
    pub(crate) area: &'a [u8],
}

impl fmt::Display for Said<'_> {
    fn fmt<W: fmt::Write>(&self, f: &mut fmt::Formatter<W>) -> fmt::Result {
        f.write_str("status ")?;
        match self.status {
            Status::Previous => f.write_str("previous"),
            Status::Unset => f.write_str("unset"),
            Status::Named(Word::Success, _) => f.write_str("success"),
            Status::Named(_, len) => {
                let front = &self.area[0..len.min(MAX_STATUS_LEN).min(self.area.len())];
                write!(f, "{}", Quoted { front, whole: len })
            }
        }
    }
}

/// A status, and whether it succeeds.
#[derive(Clone, Copy)]
struct Told<'a>(Said<'a>);

impl fmt::Display for Told<'_> {
    fn fmt<W: fmt::Write>(&self, f: &mut fmt::Formatter<W>) -> fmt::Result {
        write!(f, "{}", self.0)?;
        f.write_str(if self.0.status.is_success() {
            ", succeeds"
        } else {
            ", does not succeed"
        })
    }
}

/// The path that a row places in a text area.
fn path_at(text: &[u8], row: PathRow) -> &[u8] {
    text.get(row.at..row.at.saturating_add(row.len))
        .unwrap_or(b"")
}

impl<H: Host> Stage<H> {
    /// A status, whose name lies in the status area.
    fn told(&self, status: Status) -> Told<'_> {
        Told(Said {
            status,
            area: &self.status,
        })
    }

    fn handshake(
        &mut self,
        process: usize,
        prefix: &[u8],
        versions: &[u64],
        names: &[u8],
    ) -> Answer {
        let names = desired(self.heap, names)?;
        let prefix = Name::new(prefix).map_err(refused)?;
        let client = Client::handshake(
            &mut self.host,
            process,
            &mut self.work,
            &prefix,
            versions,
            &names,
        )
        .map_err(refused)?;
        let version = client.version;
        let named = Named {
            capabilities: client.capabilities,
            names: &names,
        };
        Ok(format!(in self.heap; "version {version}, capabilities {named}")?)
    }

    /// An exchange, with the metadata that waits.
    fn invoke(&mut self, process: usize, command: &[u8], content: &[u8]) -> Answer {
        let pairs = replace(&mut self.pairs, Vec::new(self.heap));
        let meta = meta(self.heap, &pairs)?;
        let status = client_of(process)
            .invoke(
                &mut self.host,
                &mut self.work,
                &mut self.status,
                command,
                &meta,
                content,
            )
            .map_err(refused)?;
        Ok(format!(in self.heap; "{}", self.told(status))?)
    }

    fn read_status(&mut self, process: usize) -> Answer {
        let status = client_of(process)
            .read_status(&mut self.host, &mut self.work, &mut self.status)
            .map_err(refused)?;
        Ok(format!(in self.heap; "{}", self.told(status))?)
    }

    fn read_result(&mut self, process: usize) -> Answer {
        let output = client_of(process)
            .read(&mut self.host, &mut self.work, &mut self.status)
            .map_err(refused)?;
        match output {
            Output::Payload(n) => {
                let payload = shown(&self.work[0..n.min(self.work.len())]);
                Ok(format!(in self.heap; "payload {payload}")?)
            }
            Output::Final(status) => Ok(format!(in self.heap; "{}", self.told(status))?),
        }
    }

    /// A listing, with a line for each path that is stored.
    fn list(&mut self, process: usize, rows: usize, room: usize) -> Answer {
        let mut rows: Vec<PathRow> = vec![in self.heap; PathRow { at: 0, len: 0 }; rows]?;
        let mut text: Vec<u8> = vec![in self.heap; 0; room]?;
        let outcome = client_of(process).list_available_blobs(
            &mut self.host,
            &mut self.work,
            &mut self.status,
            &mut rows,
            &mut text,
        );
        let (mut answer, stored) = match outcome {
            Ok(listed) => {
                let stored = listed.stored;
                let noun = if stored == 1 { "path" } else { "paths" };
                let answer = format!(in self.heap;
                    "{stored} {noun}, {}",
                    self.told(listed.status)
                )?;
                (answer, stored)
            }
            Err(CallError::Line(ListFault::Full(listed))) => {
                let named = listed.named;
                let stored = listed.stored;
                let answer = format!(in self.heap;
                    "7, no space: {named} named, {stored} stored, {}",
                    self.told(listed.status)
                )?;
                (answer, stored)
            }
            Err(e) => return Err(refused(e)),
        };
        for row in rows.iter().take(stored) {
            write!(answer, "\n    path {}", shown(path_at(&text, *row)))?;
        }
        Ok(answer)
    }

    /// Makes a client's call, and tells its answer.
    pub(crate) fn ask(&mut self, process: usize, call: ClientCall<'_>) -> Answer {
        match call {
            ClientCall::Handshake {
                prefix,
                versions,
                names,
            } => self.handshake(process, prefix, &versions, names),
            ClientCall::Invoke { command, content } => self.invoke(process, command, &content),
            ClientCall::Status => self.read_status(process),
            ClientCall::Result => self.read_result(process),
            ClientCall::List { rows, room } => self.list(process, rows, room),
        }
    }
}
