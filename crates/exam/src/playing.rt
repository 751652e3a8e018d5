//! A sheet played over a host.
use crate::cast::{Exercise, Scene, Sheet};
use crate::listing::{Described, Listing, Printer};
use crate::marking::mark;
use crate::refusals::{Answer, Stopped, refused};
use crate::sheet::{Call, PlainCall, What, is_played, read_played};
use crate::stage::Stage;
use anyhow::bail;
use host::host::{Host, How};
use host::reading::read;
use host::sending::{send_flush, send_line};
use mirror::mirror::Mirror;
use recording::show::{Escaped, escape};
use scripts::script::Script;

impl<H: Host> Stage<H> {
    /// Starts a command, and notes that its process is open.
    fn start(&mut self, command: &[u8]) -> Answer {
        let number = self.host.start(command).map_err(refused)?;
        self.started.push(Some(Listing::new(self.heap)))?;
        Ok(format!(in self.heap; "process {number}")?)
    }

    /// Sends a line or a flush as a packet, anything else as bytes.
    fn send(&mut self, process: usize, what: &What) -> Answer {
        match what {
            What::Data(payload) => {
                send_line(&mut self.host, process, &mut self.work, payload).map_err(refused)?
            }
            What::Flush => { send_flush(&mut self.host, process, &mut self.work).map_err(refused)? }
            What::Bytes(bytes) => self.host.send(process, bytes).map_err(refused)?,
        }
        Ok(String::from_str(self.heap, "taken")?)
    }

    /// Reads one packet.
    fn read(&mut self, process: usize) -> Answer {
        let packet = read(&mut self.host, process, &mut self.work).map_err(refused)?;
        let packet = Described(packet.with_payload(&self.work));
        Ok(format!(in self.heap; "{packet}")?)
    }

    /// Receives at most `most` bytes.
    fn receive(&mut self, process: usize, most: usize) -> Answer {
        let most = most.min(self.work.len());
        let n = self
            .host
            .receive(process, &mut self.work[0..most])
            .map_err(refused)?;
        let bytes = escape(self.heap, &self.work[0..n.min(self.work.len())])?;
        Ok(format!(in self.heap; "bytes \"{bytes}\"")?)
    }

    /// Ends a process, and notes that.
    fn end(&mut self, process: usize, how: How) -> Answer {
        self.host.end(process, how);
        let was_open = match self.started.get_mut(process) {
            Some(listing) => listing.take().is_some(),
            None => false,
        };
        let text = if was_open { "ended" } else { "was not open" };
        Ok(String::from_str(self.heap, text)?)
    }

    /// Makes a call on the host itself.
    fn make(&mut self, call: PlainCall<'_>) -> Answer {
        match call {
            PlainCall::Start(command) => self.start(command),
            PlainCall::Send(process, what) => self.send(process, &what),
            PlainCall::Read(process) => self.read(process),
            PlainCall::Receive(process, most) => self.receive(process, most),
            PlainCall::End(process, how) => self.end(process, how),
        }
    }
}

/// Prints a line as it is written.
pub(crate) fn print_line(rt: &HostRuntime, line: &[u8]) -> anyhow::Result<()> {
    match std::str::from_utf8(line) {
        Ok(text) => println!(rt; "{text}")?,
        Err(_) => println!(rt; "{}", Escaped(line))?,
    }
    Ok(())
}

/// Prints what a call answered, or its refusal.
fn print_answer(rt: &HostRuntime, answer: Answer) -> anyhow::Result<()> {
    match answer {
        Ok(text) => println!(rt; "  = {text}")?,
        Err(Stopped::Refused(refusal)) => println!(rt; "  = {refusal}")?,
        Err(Stopped::Failed(e)) => return Err(e),
    }
    Ok(())
}

/// Plays one line of a sheet: under a client's call stand the packets that passed, and under any call its answer.
fn play_line<H: Host>(rt: &HostRuntime, stage: &mut Stage<H>, line: &[u8]) -> anyhow::Result<()> {
    let call = read_played(rt.alloc(), line)?;
    print_line(rt, line)?;
    match call {
        Call::With(pair) => {
            stage.pairs.push(pair)?;
            Ok(())
        }
        Call::Plain(call) => {
            let answer = stage.make(call);
            stage.count()?;
            print_answer(rt, answer)
        }
        Call::Client(process, call) => {
            let answer = stage.ask(process, call);
            let mut printer = Printer::new(rt);
            stage.tell(&mut printer)?;
            printer.print()?;
            print_answer(rt, answer)
        }
    }
}

/// Which processes are open at the end.
fn print_open(rt: &HostRuntime, started: &[Option<Listing>]) -> anyhow::Result<()> {
    for (number, process) in started.iter().enumerate() {
        let state = if process.is_some() {
            "open"
        } else {
            "not open"
        };
        println!(rt; "process {number} is {state}")?;
    }
    Ok(())
}

/// Plays lines over a host, and tells at the end which processes are open; or marks a table's exchange over it.
fn play_over<H: Host + Drop>(
    rt: &HostRuntime,
    host: H,
    lines: &[&[u8]],
    exercise: &Exercise<'_>,
) -> anyhow::Result<()> {
    if exercise.is_begun() {
        return mark(rt, host, exercise);
    }
    let mut stage = Stage::new(rt.alloc(), host)?;
    for line in lines.iter().filter(|line| is_played(line)) {
        play_line(rt, &mut stage, line)?;
    }
    print_open(rt, &stage.started)
}

/// Reads a sheet, then plays its lines. A bad line is told before anything is played.
pub(crate) fn play(rt: &HostRuntime, lines: &[&[u8]]) -> anyhow::Result<()> {
    let mut sheet = Sheet::new(rt.alloc());
    for (i, line) in lines.iter().enumerate() {
        if let Err(bad) = sheet.add(rt.alloc(), line) {
            let number = i.saturating_add(1);
            println!(rt; "line {number} is bad: {bad}; nothing is played")?;
            bail!("a line of the sheet is bad");
        }
    }
    let Sheet {
        scene,
        exercise,
        ..
    } = sheet;
    match scene {
        Scene::Script(cast) => {
            let Ok(script) = Script::new(&cast.bytes, &cast.rows) else {
                bail!("a sheet has at most 16 processes");
            };
            play_over(rt, script, lines, &exercise)
        }
        Scene::Mirror => play_over(rt, Mirror::new(), lines, &exercise),
    }
}
