//! What one crate lends the next: a hexadecimal digit, and packets laid down by a caller who has judged payload and area.
ghost use Rattle.std.specs.Prelude.{◌≡◌, ◌+◌, ◌%◌, ◌<◌, ◌≤◌, true, ◌∷◌, ◌++◌, length};
ghost use Rattle.packetline.specs.Packets.{hex_char, digits, Pkt, flush, line, line_pkt, framable, sendable, packet, over};

/// The hexadecimal digit, in lower case, of the last four bits of `n`.
pub fn hex_char(n: usize) -> u8
    ensures value { result ≡ hex_char (n % 16) }
    ensures ascii { result < 128 }
{
    let d = (n % 16) as u8;
    if d < 10 { b'0' + d } else { b'a' + (d - 10) }
}

// The room that each needs is asked for: the areas are of any caller, and of three lengths.
/// The four digits of `n` over the front of `area`.
fn lay_header(n: usize, area: &mut [u8])
    requires small { n < 65536 }
    requires room { 4 ≤ length area.old }
    ensures { area.new ≡ over (digits n) area.old }
{
    area[0] = hex_char(n / 4096);
    area[1] = hex_char(n / 256);
    area[2] = hex_char(n / 16);
    area[3] = hex_char(n);
}

/// The packet of `payload` over the front of `area`, and its length.
pub fn lay_data(payload: &[u8], area: &mut [u8]) -> usize
    requires framable { framable payload.now ≡ true }
    requires room { length payload.now + 4 ≤ length area.old }
    ensures laid { area.new ≡ over (packet (line payload.now)) area.old }
    ensures len { result ≡ length (packet (line payload.now)) }
{
    let n = payload.len() + 4;
    lay_header(n, area);
    area[4..n].copy_from_slice(payload);
    n
}

/// The packet of a line in two parts with a sign between them, over the front of `area`, and its length.
pub fn lay_pair(left: &[u8], sign: u8, right: &[u8], area: &mut [u8]) -> usize
    requires sendable { sendable (line_pkt (left.now ++ sign ∷ right.now)) ≡ true }
    requires room { length left.now + length right.now + 5 ≤ length area.old }
    ensures laid { area.new ≡ over (packet (line_pkt (left.now ++ sign ∷ right.now))) area.old }
    ensures len { result ≡ length (packet (line_pkt (left.now ++ sign ∷ right.now))) }
{
    let middle = left.len() + 4;
    let n = middle + 1 + right.len();
    lay_header(n, area);
    area[4..middle].copy_from_slice(left);
    area[middle] = sign;
    area[middle + 1..n].copy_from_slice(right);
    n
}

/// A flush over the front of `area`, and its length.
pub fn lay_flush(area: &mut [u8]) -> usize
    requires { 4 ≤ length area.old }
    ensures laid { area.new ≡ over (packet flush) area.old }
    ensures len { result ≡ length (packet flush) }
{
    area[0..4].copy_from_slice(b"0000");
    4
}
