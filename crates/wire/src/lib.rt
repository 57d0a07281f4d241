// Little-endian fields of bytes: read from a slice at a place, and written to one. No place is refused.
// Past the end a byte reads as 0, and what is written there is not stored and still counts, up to the largest usize (of a field across
// the end the bytes that fit are stored): so one writer both measures and writes.
#![tactic(auto)]

ghost use Rattle.std.specs.Prelude.{◌≡◌, [], ◌∷◌, ℕ, ◌+◌, ◌<◌};
ghost use Rattle.wire.specs.Fields.{byte, le16, le32, le64, int32, le_bytes, int32_bytes};
ghost use Rattle.wire.specs.Puts.{Puts};

// The last place: counting stops there.
pub const LAST_PLACE: usize = usize::MAX;

// ---- reading: one line for each type, which a caller names, over one reader of bytes

pub fn byte_at(s: &[u8], at: usize) -> u8
    ensures { result ≡ byte s.now at }
{
    s.get(at).copied().unwrap_or(0)
}

// The bytes of a field. Those of one that stands before the end are copied whole, with one test: LLVM makes that one load.
fn bytes_at<const N: usize>(s: &[u8], at: usize) -> [u8; N]
    ensures { (i : ℕ) → i < N → byte result i ≡ byte s.now (at + i) }
{
    let rest = &s[at.min(s.len())..];
    if let Some(whole) = rest.first_chunk() {
        return *whole;
    }
    let mut bytes = [0; N];
    bytes[..rest.len()].copy_from_slice(rest);
    bytes
}

#[tactic(auto, unfolding(crate::specs::Fields::le))]
pub fn u16_at(s: &[u8], at: usize) -> u16
    ensures { result ≡ le16 s.now at }
{
    u16::from_le_bytes(bytes_at(s, at))
}

#[tactic(auto, unfolding(crate::specs::Fields::le))]
pub fn u32_at(s: &[u8], at: usize) -> u32
    ensures { result ≡ le32 s.now at }
{
    u32::from_le_bytes(bytes_at(s, at))
}

#[tactic(auto, unfolding(crate::specs::Fields::le))]
pub fn u64_at(s: &[u8], at: usize) -> u64
    ensures { result ≡ le64 s.now at }
{
    u64::from_le_bytes(bytes_at(s, at))
}

#[tactic(auto, using(crate::specs::Laws::twos_of))]
pub fn i32_at(s: &[u8], at: usize) -> i32
    ensures { result ≡ int32 s.now at }
{
    u32_at(s, at).cast_signed()
}

// ---- writing: each gives the place after what it wrote; of the fields one line for each type, over one writer of bytes. An output and the place in
// it stay two parameters, here and above: a struct of both would hold a `&mut`, and each function would also have to promise that it still lends the
// same buffer.

pub fn put<T: Copy>(out: &mut [T], at: usize, b: T) -> usize
    ensures { Puts out.old at (b ∷ []) out.new result }
{
    if at < out.len() {
        out[at] = b;
    }
    at.saturating_add(1)
}

// Where all fit they are copied whole: LLVM makes a field one store.
pub fn put_all(out: &mut [u8], at: usize, bytes: &[u8]) -> usize
    ensures { Puts out.old at bytes.now out.new result }
{
    let end = at.saturating_add(bytes.len());
    if end <= out.len() {
        out[at..end].copy_from_slice(bytes);
        return end;
    }
    let mut p = at;
    for byte in bytes {
        p = put(out, p, *byte);
    }
    p
}

#[tactic(auto, unfolding(crate::specs::Fields::le_bytes))]
pub fn put_u16(out: &mut [u8], at: usize, v: u16) -> usize
    ensures { Puts out.old at (le_bytes 2 v) out.new result }
{
    put_all(out, at, &u16::to_le_bytes(v))
}

#[tactic(auto, unfolding(crate::specs::Fields::le_bytes))]
pub fn put_u32(out: &mut [u8], at: usize, v: u32) -> usize
    ensures { Puts out.old at (le_bytes 4 v) out.new result }
{
    put_all(out, at, &u32::to_le_bytes(v))
}

#[tactic(auto, unfolding(crate::specs::Fields::le_bytes))]
pub fn put_u64(out: &mut [u8], at: usize, v: u64) -> usize
    ensures { Puts out.old at (le_bytes 8 v) out.new result }
{
    put_all(out, at, &u64::to_le_bytes(v))
}

#[tactic(auto, using(crate::specs::Laws::bits_of))]
pub fn put_i32(out: &mut [u8], at: usize, z: i32) -> usize
    ensures { Puts out.old at (int32_bytes z) out.new result }
{
    put_u32(out, at, z.cast_unsigned())
}
