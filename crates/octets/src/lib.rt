// Numbers in bytes, high byte first: the segment file and the run program's input are read by these alone.
// Every reader is total: a byte past the end is 0.
#![tactic(auto)]

ghost use Rattle.std.specs.Prelude.{◌≡◌};
ghost use Rattle.rules.specs.Segments.{byte_at, half_at, word_at};

// A byte.
pub fn byte(f: &[u8], k: usize) -> u8
    ensures { result ≡ byte_at f.now k }
{
    lent::get(f, k, 0)
}

// Two bytes. This and the next are two, since `from_be_bytes` is a function of each type, and the rest past the end is spelled for each.
// Whether the bytes lie within the slice is asked once for all of them, and only where they don't for each.
pub fn half(f: &[u8], k: usize) -> u16
    ensures { result ≡ half_at f.now k }
{
    if let Some([a, b]) = f.get(k..k.saturating_add(2)) {
        return u16::from_be_bytes([*a, *b]);
    }
    u16::from_be_bytes([byte(f, k), 0])
}

// Four bytes.
pub fn word(f: &[u8], k: usize) -> u32
    ensures { result ≡ word_at f.now k }
{
    if let Some([a, b, c, d]) = f.get(k..k.saturating_add(4)) {
        return u32::from_be_bytes([*a, *b, *c, *d]);
    }
    match f.get(k..) {
        Some(rest) => u32::from_be_bytes([byte(rest, 0), byte(rest, 1), byte(rest, 2), 0]),
        None => 0,
    }
}
