//! A server's calls. What is worked off cannot be let go, so a call answers what is told of it, and nothing here is left by `?` before the exchange's lines are all played.
use crate::answer::refused;
use crate::bad::Bad;
use crate::room::Room;
use crate::stage::{Stage, is_scene};
use crate::table::{name, names};
use crate::words::{Shown, numbers, spelt, split_words, whole_number, word};
use choices::choice::{FirstOf, HighestUpTo};
use host::host::Host;
use host::inner::MAX_LINE_LEN;
use requests::asked::MetaRow;
use server::refused::Refused;
use server::request::{Content, Request};
use server::response::{Report, Response};
use server::server::{Next, Server};
use server::writing::{Unflushed, Writing};
use slices::name::Name;
use slices::refusal::Numbered;
use std::alloc::{AllocError, Global};

/// What a server has to do next.
enum Role {
    /// No hands were shaken.
    Nobody,
    Waits(Server),
    Reads(Request),
    Answers(Response),
    Writes(Writing),
}

/// A whole content.
fn content_of(heap: Global, content: &[u8]) -> Said {
    let content = Shown(content);
    Ok(format!(in heap; "content {content}")?)
}

/// What a server was asked.
fn asked(heap: Global, request: &Request, text: &[u8], rows: &[MetaRow]) -> Said {
    let command = Shown(request.command(text));
    let mut told = format!(in heap; "request {command}")?;
    for row in request.metadata(rows) {
        let (key, value) = row.pair(text);
        write!(told, " {}={}", Shown(key), Shown(value))?;
    }
    Ok(told)
}

/// The version and the names that a server and its client share, in the order first named.
fn shared(heap: Global, server: &Server, names: &[Name]) -> Result<String, AllocError> {
    let version = server.version();
    let mut told = format!(in heap; "0 {version}")?;
    let shared = server.capabilities();
    for place in shared.as_slice() {
        if let Some(name) = names.get(*place) {
            write!(told, " {}", Shown(name.as_bytes()))?;
        }
    }
    Ok(told)
}

/// Ends a writing; the number that its flush was refused for, or 0.
fn end_writing<H: Host>(host: &mut H, writing: Writing) -> (Response, u8) {
    let mut work = [0u8; MAX_LINE_LEN];
    match writing.flush(host, &mut work) {
        Ok(response) => (response, 0),
        Err(Unflushed::Ended(Refused { back, why })) => (back, why.refusal_number()),
        Err(Unflushed::Open(Refused { back, why: _ })) => unreachable!(),
    }
}

/// What one read of a content comes to.
enum Turn {
    More(Request),
    Over(Response, Result<u8, Bad>),
}

/// Reads one payload of a content, and adds it to what was read before.
fn read_payload<H: Host>(
    host: &mut H,
    room: &mut Room,
    content: &mut Vec<u8>,
    request: Request,
) -> Turn {
    match request.read(host, &mut room.work) {
        Ok(Content::Payload(more, n)) => {
            let payload = &room.work[0..n.min(room.work.len())];
            match content.extend_from_slice(payload) {
                Ok(()) => Turn::More(more),
                Err(_) => Turn::Over(more.without_content(), Err(Bad::OutOfMemory)),
            }
        }
        Ok(Content::End(response)) => Turn::Over(response, Ok(0)),
        Err(Refused { back, why }) => Turn::Over(back.without_content(), Ok(why.refusal_number())),
    }
}

/// A content's payloads up to its end, by 0 or the number of what ended it before; it has at most `most` payloads.
fn read_content<H: Host>(
    host: &mut H,
    room: &mut Room,
    content: &mut Vec<u8>,
    request: Request,
    most: usize,
) -> (Response, Result<u8, Bad>) {
    let mut request = request;
    for _ in 0..most {
        match read_payload(host, room, content, request) {
            Turn::More(more) => request = more,
            Turn::Over(response, read) => return (response, read),
        }
    }
    (request.without_content(), Err(Bad::Line))
}

/// The server that waits for its next request once what it works on is done, if there is one.
fn waiting<H: Host>(host: &mut H, role: Role) -> Option<Server> {
    match role {
        Role::Nobody => None,
        Role::Waits(server) => Some(server),
        Role::Reads(request) => Some(request.without_content().done()),
        Role::Answers(response) => Some(response.done()),
        Role::Writes(writing) => {
            let (response, _number) = end_writing(host, writing);
            Some(response.done())
        }
    }
}

/// The role once its content is read or absent, and no writing is open.
fn answering<H: Host>(host: &mut H, role: Role) -> Role {
    match role {
        Role::Reads(request) => Role::Answers(request.without_content()),
        Role::Writes(writing) => {
            let (response, _number) = end_writing(host, writing);
            Role::Answers(response)
        }
        other => other,
    }
}

/// The role once a writing is open, where there is a request.
fn writing_on<H: Host>(host: &mut H, role: Role) -> Role {
    match role {
        Role::Writes(writing) => Role::Writes(writing),
        Role::Reads(request) => Role::Writes(request.without_content().writing()),
        Role::Answers(response) => Role::Writes(response.writing()),
        other => other,
    }
}

/// A refusal's number, or 0 where the call went well.
fn went(heap: Global, number: u8) -> Said {
    Ok(format!(in heap; "{number}")?)
}

fn words_of(heap: Global, text: &str) -> Said {
    Ok(String::from_str(heap, text)?)
}

/// What a call says, or why it could not be told.
type Said = Result<String, Bad>;

impl Stage<'_> {
    /// Shakes hands with a peer by the choice that a word names.
    fn serve(&mut self, room: &mut Room, words: &[&[u8]]) -> Result<(Option<Server>, String), Bad> {
        let heap = self.heap;
        let prefix = name(heap, word(words, 1))?;
        let choice = word(words, 2);
        let names = names(heap, word(words, 3))?;
        let process = self.start_peer()?;
        let served = if let Some(bound) = choice.strip_prefix(b"max:") {
            let choice = HighestUpTo {
                bound: whole_number(bound)?,
            };
            Server::handshake(
                &mut self.host,
                process,
                &mut room.work,
                &prefix,
                &mut room.versions,
                &choice,
                &names,
            )
        } else {
            let own = numbers(heap, choice.strip_prefix(b"own:").ok_or(Bad::Line)?)?;
            Server::handshake(
                &mut self.host,
                process,
                &mut room.work,
                &prefix,
                &mut room.versions,
                &FirstOf { own: &own },
                &names,
            )
        };
        match served {
            Ok(server) => {
                let told = shared(heap, &server, &names)?;
                Ok((Some(server), told))
            }
            Err(why) => Ok((None, refused(why).told(heap, room)?)),
        }
    }

    fn next(&mut self, room: &mut Room, role: Role) -> (Role, Said) {
        let heap = self.heap;
        let Some(server) = waiting(&mut self.host, role) else {
            return (Role::Nobody, words_of(heap, "no server"));
        };
        match server.next_request(
            &mut self.host,
            &mut room.work,
            &mut room.pairs,
            &mut room.text,
        ) {
            Ok(Next::Request(request)) => {
                let said = asked(heap, &request, &room.text, &room.pairs);
                (Role::Reads(request), said)
            }
            Ok(Next::Over(server)) => (Role::Waits(server), words_of(heap, "none")),
            Err(Refused { back, why }) => { (Role::Waits(back), went(heap, why.refusal_number())) }
        }
    }

    fn content(&mut self, room: &mut Room, role: Role) -> (Role, Said) {
        let heap = self.heap;
        let most = self.left(0).saturating_add(1);
        let mut content: Vec<u8> = Vec::new(heap);
        match role {
            Role::Reads(request) => {
                let (response, read) = read_content(
                    &mut self.host,
                    room,
                    &mut content,
                    request,
                    most,
                );
                let said = match read {
                    Ok(0) => content_of(heap, &content),
                    Ok(number) => went(heap, number),
                    Err(bad) => Err(bad),
                };
                (Role::Answers(response), said)
            }
            other => (other, words_of(heap, "no request")),
        }
    }

    fn status(&mut self, room: &mut Room, role: Role, named: &[u8]) -> (Role, Said) {
        let heap = self.heap;
        let name = match spelt(heap, named) {
            Ok(name) => name,
            Err(bad) => return (role, Err(bad)),
        };
        let report = Report::Named(&name);
        self.say(room, role, report)
    }

    fn say(&mut self, room: &mut Room, role: Role, report: Report<'_>) -> (Role, Said) {
        let heap = self.heap;
        match answering(&mut self.host, role) {
            Role::Answers(response) => {
                match response.write_status(&mut self.host, &mut room.work, report) {
                    Ok(response) => (Role::Answers(response), went(heap, 0)),
                    Err(Refused { back, why }) => {
                        (Role::Answers(back), went(heap, why.refusal_number()))
                    }
                }
            }
            other => (other, words_of(heap, "no request")),
        }
    }

    fn write(&mut self, room: &mut Room, role: Role, word: &[u8]) -> (Role, Said) {
        let heap = self.heap;
        let bytes = match spelt(heap, word) {
            Ok(bytes) => bytes,
            Err(bad) => return (role, Err(bad)),
        };
        match writing_on(&mut self.host, role) {
            Role::Writes(writing) => {
                match writing.write(&mut self.host, &mut room.work, &bytes) {
                    Ok(writing) => (Role::Writes(writing), went(heap, 0)),
                    Err(Refused { back, why }) => {
                        (Role::Writes(back), went(heap, why.refusal_number()))
                    }
                }
            }
            other => (other, words_of(heap, "no request")),
        }
    }

    fn flush(&mut self, role: Role) -> (Role, Said) {
        let heap = self.heap;
        match writing_on(&mut self.host, role) {
            Role::Writes(writing) => {
                let (response, number) = end_writing(&mut self.host, writing);
                (Role::Answers(response), went(heap, number))
            }
            other => (other, words_of(heap, "no request")),
        }
    }

    /// Makes the server's call of a line.
    fn step(&mut self, room: &mut Room, role: Role, words: &[&[u8]]) -> (Role, Said) {
        match word(words, 0) {
            b"serve" => match self.serve(room, words) {
                Ok((served, said)) => {
                    retire(&mut self.host, role);
                    match served {
                        Some(server) => (Role::Waits(server), Ok(said)),
                        None => (Role::Nobody, Ok(said)),
                    }
                }
                Err(bad) => (role, Err(bad)),
            },
            b"next" => self.next(room, role),
            b"content" => self.content(room, role),
            b"status" => match word(words, 1) {
                b"previous" => self.say(room, role, Report::Previous),
                named => self.status(room, role, named),
            },
            b"write" => self.write(room, role, word(words, 1)),
            b"flush" => self.flush(role),
            _ => (role, Err(Bad::Line)),
        }
    }

    /// Tells what a server's call said, and what happened.
    fn tell_said(&mut self, line: &[u8], said: Said) -> Result<(), Bad> {
        let said = said?;
        self.tell_line(line)?;
        writeln!(self.told, "= {said}")?;
        self.tell_passed()
    }

    /// Plays the lines of an exchange that has a server.
    pub(crate) fn attend(&mut self, room: &mut Room, lines: &[&[u8]]) -> Result<(), Bad> {
        let heap = self.heap;
        let mut role = Role::Nobody;
        let mut all = Ok(());
        for line in lines {
            if is_scene(line) {
                all = all.and(self.tell_line(line));
                continue;
            }
            let words = match split_words(heap, line) {
                Ok(words) => words,
                Err(_) => Vec::new(heap),
            };
            let (after, said) = self.step(room, role, &words);
            role = after;
            all = all.and(self.tell_said(line, said));
        }
        retire(&mut self.host, role);
        all
    }
}

/// What a role comes to where nothing more is played.
fn retire<H: Host>(host: &mut H, role: Role) {
    match role {
        Role::Nobody => {}
        Role::Waits(_server) => {}
        Role::Reads(request) => {
            let _server = request.without_content().done();
        }
        Role::Answers(response) => {
            let _server = response.done();
        }
        Role::Writes(writing) => {
            let (response, _number) = end_writing(host, writing);
            let _server = response.done();
        }
    }
}
