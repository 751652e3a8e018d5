//! What a server says, in the packets that it says it in.
ghost use Rattle.std.specs.Prelude.{◌≡◌, ◌+◌, ◌≤◌, ◌++◌, length, IfSome};
ghost use Rattle.std.specs.Option.{option_map};
ghost use Rattle.slices.specs.Names.{name_bytes};
ghost use Rattle.packetline.specs.Packets.{packets};
ghost use Rattle.handshake.specs.Places.{AllWithin};
ghost use Rattle.handshake.specs.Servers.{answers, shares};
ghost use Rattle.handshake.specs.Sharing.{places_of};
ghost use Rattle.mirror.specs.Memory.{waiting_in};
ghost use Rattle.mirror.specs.Reflecting.{status_packets, writing_packets, no_blobs, reflection};

use crate::answer::Answer;
use handshake::shared::Shared;
use packetline::text::decimal;
use slices::name::Name;

impl Answer {
    /// The server's welcome, the version that it chose, and a flush.
    pub(crate) fn say_version(&mut self, prefix: &Name, version: u64)
        requires { self.old.to ≡ 0 }
        ensures { waiting_in self.new ≡ waiting_in self.old ++ packets (answers (name_bytes prefix.now) version) }
    {
        self.say_pair(prefix.as_bytes(), b'-', b"server");
        // Fixed memory: the library allocates nothing.
        let mut digits = [0u8; 20];
        let at = decimal(version, &mut digits);
        self.say_pair(b"version", b'=', &digits[at..]);
        self.say_flush();
    }

    /// A line for each shared name, and a flush.
    pub(crate) fn say_shared(&mut self, names: &[Name], shared: &Shared)
        requires empty { self.old.to ≡ 0 }
        requires two { length names.now ≡ 2 }
        requires inside { AllWithin 2 (places_of shared.now) }
        ensures { waiting_in self.new ≡ waiting_in self.old ++ packets (shares names.now (places_of shared.now)) }
    {
        for k in shared.as_slice() {
            self.say_pair(b"capability", b'=', names[*k].as_bytes());
        }
        self.say_flush();
    }

    /// A status, and a flush.
    fn say_status(&mut self, name: &[u8])
        requires { self.old.to + length name.now + 15 ≤ 4130 }
        ensures says { waiting_in self.new ≡ waiting_in self.old ++ packets (status_packets name.now) }
        ensures to { self.new.to ≡ self.old.to + length name.now + 15 }
    {
        self.say_pair(b"status", b'=', name);
        self.say_flush();
    }

    /// Bytes in a packet, none for no bytes, and a flush.
    fn say_writing(&mut self, bytes: &[u8])
        requires { self.old.to + length bytes.now + 8 ≤ 4130 }
        ensures says { waiting_in self.new ≡ waiting_in self.old ++ packets (writing_packets bytes.now) }
        ensures to { self.new.to ≤ self.old.to + length bytes.now + 8 }
    {
        if bytes.is_empty() {
            return self.say_flush();
        }
        self.say(bytes);
        self.say_flush();
    }

    /// That there are no blobs.
    pub(crate) fn say_no_blobs(&mut self)
        requires { self.old.to ≡ 0 }
        ensures { waiting_in self.new ≡ waiting_in self.old ++ packets no_blobs }
    {
        self.say_writing(b"");
        self.say_status(b"success");
    }

    /// Content as it came, or an error where none is given back.
    pub(crate) fn say_content(&mut self, content: Option<&[u8]>)
        requires empty { self.old.to ≡ 0 }
        requires small { IfSome content (λ x. length x.now ≤ 4096) }
        ensures { waiting_in self.new ≡ waiting_in self.old ++ packets (reflection (option_map (λ x. x.now) content.entry)) }
    {
        let Some(bytes) = content else {
            self.say_status(b"error");
            return;
        };
        self.say_status(b"success");
        self.say_writing(bytes);
        self.say_flush();
    }
}
