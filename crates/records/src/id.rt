//! The id of an object.
ghost use Rattle.std.specs.Prelude.{◌≡◌, length};
ghost use Rattle.records.specs.Ids.{id_digits};

use packetline::inner::hex_char;

/// The id of an object: 20 bytes.
#[derive(Clone, Copy)]
pub struct ObjectId {
    pub bytes: [u8; 20],
    ghost room: { length bytes ≡ 20 },
}

impl From<[u8; 20]> for ObjectId {
    ghost from_gives = { λ bytes id. id.bytes ≡ bytes };

    fn from(bytes: [u8; 20]) -> ObjectId {
        ObjectId { bytes }
    }
}

impl ObjectId {
    /// Its digits, as it is told.
    pub fn to_hex(&self) -> [u8; 40]
        ensures { result ≡ id_digits self.now.bytes }
    {
        let mut digits = [0u8; 40];
        for i in 0..20 {
            let byte = self.bytes[i] as usize;
            digits[2 * i] = hex_char(byte / 16);
            digits[2 * i + 1] = hex_char(byte);
        }
        digits
    }
}
