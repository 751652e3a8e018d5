//! The server of one process, which hears packet by packet.
ghost use Rattle.std.specs.Prelude.{◌≡◌, ℕ, ◌||◌, List, [], ◌∷◌, Some, codes};
ghost use Rattle.std.specs.Option.{option_map};
ghost use Rattle.std.specs.Str.{bytes_eq};
ghost use Rattle.slices.specs.declared.name.Name.{Name};
ghost use Rattle.choices.specs.Choices.{first_offered};
ghost use Rattle.packetline.specs.Reads.{pkt};
ghost use Rattle.mirror.specs.Stages.{hailing, offering, idle, asking, hearing, silent, text_in, content_in, request_to, hears};
ghost use Rattle.mirror.specs.Memory.{prefix_of, versions_of, request_of, content_of};
ghost use Rattle.mirror.specs.Servers.{naming_by, stage_of, Quietly, Aloud, Moved};

use crate::answer::Answer;
use crate::chosen::Chosen;
use crate::content::Content;
use crate::draft::Draft;
use crate::house::House;
use crate::offered::Offered;
use choices::choice::{Choice, FirstOf};
use handshake::inner::judge_hail;
use packetline::packet::{Packet, PacketLineRef};
use packetline::text::text;

/// What a server waits for.
#[derive(Clone, Copy)]
pub(crate) enum Standing {
    Hailing,
    Offering,
    Naming(Chosen),
    Idle,
    Asking,
    Hearing,
    Silent,
}

/// Where a server stands, and the memory of what it heard.
#[derive(Drop)]
pub(crate) struct Server {
    standing: Standing,
    offered: Offered,
    draft: Draft,
    content: Content,
}

/// The line of text in a packet, or none at a flush; or that it is neither.
fn text_in(packet: PacketLineRef<'_>) -> Option<Option<&[u8]>>
    ensures { option_map (option_map (λ x. x.now)) result ≡ text_in (pkt packet.entry) }
{
    match packet {
        Packet::Flush => Some(None),
        Packet::Data(payload) => Some(Some(text(payload).ok()?.as_bytes())),
        _ => None,
    }
}

/// The payload in a packet, or none at a flush; or that it is neither.
fn content_in(packet: PacketLineRef<'_>) -> Option<Option<&[u8]>>
    ensures { option_map (option_map (λ x. x.now)) result ≡ content_in (pkt packet.entry) }
{
    match packet {
        Packet::Flush => Some(None),
        Packet::Data(payload) => Some(Some(payload)),
        _ => None,
    }
}

/// The version that is chosen of those that were offered: 2, if it was.
fn choose(offered: &[u64]) -> Option<u64>
    ensures { result ≡ first_offered (2 ∷ []) offered.now }
{
    let own = [2];
    FirstOf { own: &own }.choose(offered)
}

/// Whether content is given back to a command.
fn is_filter(command: &[u8]) -> bool
    ensures { result ≡ bytes_eq command.now (codes "clean") || bytes_eq command.now (codes "smudge") }
{
    command == b"clean".as_slice() || command == b"smudge".as_slice()
}

impl Server {
    /// A server that waits for its client's welcome.
    pub(crate) fn new() -> Server
        ensures { stage_of result ≡ hailing }
    {
        Server {
            standing: Standing::Hailing,
            offered: Offered::none(),
            draft: Draft::none(),
            content: Content::none(),
        }
    }

    /// Begins anew.
    pub(crate) fn restart(&mut self)
        ensures { stage_of self.new ≡ hailing }
    {
        self.standing = Standing::Hailing;
    }

    /// Hears no more.
    pub(crate) fn give_up(&mut self)
        ensures { stage_of self.new ≡ silent }
    {
        self.standing = Standing::Silent;
    }

    // Each of the next answers where the server stands after a packet, or none where it gives up.

    /// The client's welcome.
    fn hear_hail(&mut self, house: &House, packet: PacketLineRef<'_>) -> Option<Standing>
        ensures { Quietly (hears (prefix_of house.now) house.now.names hailing (pkt packet.entry)) result self.new }
    {
        let line = text_in(packet)?;
        judge_hail(line, &house.prefix).ok()?;
        self.offered.clear();
        Some(Standing::Offering)
    }

    /// A version that the client offers, or the end of its offer.
    fn hear_offer(
        &mut self,
        house: &House,
        packet: PacketLineRef<'_>,
        answer: &mut Answer,
    ) -> Option<Standing>
        requires { answer.old.to ≡ 0 }
        ensures { Aloud (hears (prefix_of house.now) house.now.names (offering (versions_of self.old.offered)) (pkt packet.entry)) result self.new answer.new }
    {
        if let Some(line) = text_in(packet)? {
            self.offered.keep(line).ok()?;
            return Some(Standing::Offering);
        }
        let version = choose(self.offered.as_slice())?;
        answer.say_version(&house.prefix, version);
        Some(Standing::Naming(Chosen::new(version)))
    }

    /// A name that the client desires, or the end of its names.
    fn hear_name(
        &self,
        chosen: Chosen,
        house: &House,
        packet: PacketLineRef<'_>,
        answer: &mut Answer,
    ) -> Option<Standing>
        requires { answer.old.to ≡ 0 }
        ensures { Aloud (hears (prefix_of house.now) house.now.names (naming_by chosen) (pkt packet.entry)) result self.now answer.new }
    {
        if let Some(line) = text_in(packet)? {
            return Some(Standing::Naming(chosen.with_line(line, &house.names)));
        }
        answer.say_shared(&house.names, &chosen.shared);
        Some(Standing::Idle)
    }

    /// The command of a request.
    fn hear_command(&mut self, packet: PacketLineRef<'_>) -> Option<Standing>
        ensures { (prefix : List ℕ) (names : List Name) → Quietly (hears prefix names idle (pkt packet.entry)) result self.new }
    {
        let line = text_in(packet)??;
        self.draft.begin(line).ok()?;
        Some(Standing::Asking)
    }

    /// A request's metadata, or its end: a listing is answered at once, any other request when its content has come.
    fn hear_pair(&mut self, packet: PacketLineRef<'_>, answer: &mut Answer) -> Option<Standing>
        requires { answer.old.to ≡ 0 }
        ensures { (prefix : List ℕ) (names : List Name) → Aloud (hears prefix names (asking (request_of self.old.draft)) (pkt packet.entry)) result self.new answer.new }
    {
        match packet {
            Packet::Data(line) => {
                self.draft.add(line).ok()?;
                Some(Standing::Asking)
            }
            Packet::Flush => Some(self.asked(answer)),
            _ => None,
        }
    }

    /// A whole request.
    fn asked(&mut self, answer: &mut Answer) -> Standing
        requires { answer.old.to ≡ 0 }
        ensures { Aloud (request_to (request_of self.old.draft)) (Some result) self.new answer.new }
    {
        let command = self.draft.command();
        if command == b"list_available_blobs".as_slice() {
            answer.say_no_blobs();
            return Standing::Idle;
        }
        self.content.begin(is_filter(command));
        Standing::Hearing
    }

    /// A request's content, or its end.
    fn hear_content(&mut self, packet: PacketLineRef<'_>, answer: &mut Answer) -> Option<Standing>
        requires { answer.old.to ≡ 0 }
        ensures { (prefix : List ℕ) (names : List Name) → Aloud (hears prefix names (hearing (content_of self.old.content)) (pkt packet.entry)) result self.new answer.new }
    {
        if let Some(payload) = content_in(packet)? {
            self.content.add(payload);
            return Some(Standing::Hearing);
        }
        answer.say_content(self.content.get());
        Some(Standing::Idle)
    }

    /// Where the server stands after a packet.
    fn after(
        &mut self,
        house: &House,
        packet: PacketLineRef<'_>,
        answer: &mut Answer,
    ) -> Option<Standing>
        requires { answer.old.to ≡ 0 }
        ensures { Aloud (hears (prefix_of house.now) house.now.names (stage_of self.old) (pkt packet.entry)) result self.new answer.new }
    {
        match self.standing {
            Standing::Hailing => self.hear_hail(house, packet),
            Standing::Offering => self.hear_offer(house, packet, answer),
            Standing::Naming(chosen) => self.hear_name(chosen, house, packet, answer),
            Standing::Idle => self.hear_command(packet),
            Standing::Asking => self.hear_pair(packet, answer),
            Standing::Hearing => self.hear_content(packet, answer),
            Standing::Silent => None,
        }
    }

    /// Hears a packet, and says to the client what it says to that.
    pub(crate) fn hear(&mut self, house: &House, packet: PacketLineRef<'_>, answer: &mut Answer)
        requires { answer.old.to ≡ 0 }
        ensures { Moved (hears (prefix_of house.now) house.now.names (stage_of self.old) (pkt packet.entry)) self.new answer.new }
    {
        self.standing = self
            .after(house, packet, answer)
            .unwrap_or(Standing::Silent);
    }
}
