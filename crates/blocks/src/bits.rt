// Bits in a slice of bytes: bit k is bit k % 8, from the lowest, of byte k / 8. Past the end every bit is 0. They are
// functions over the slice: a type around it would be a second name for what `Bitmap` holds.
ghost use Rattle.std.specs.Prelude.{◌≡◌, ◌<◌, ◌≤◌, ◌+◌, ◌*◌, ◌^◌, max, length, MatchOption, slice_index};
ghost use Rattle.blocks.specs.Bits.{bits, flipped, cleared, FirstClear, FirstFree, Taken};

// Byte i, or 0 past the end.
fn byte_at(bytes: &[u8], i: u32) -> u8
    ensures value { result ≡ slice_index bytes.now i }
{
    bytes.get(i as usize).copied().unwrap_or(0)
}

// Whether bit n is 1.
pub(crate) fn is_set(bytes: &[u8], n: u32) -> bool
    ensures value { result ≡ bits bytes.now n }
{
    (byte_at(bytes, n / 8) >> (n % 8)) % 2 == 1
}

// Turns bit n.
pub(crate) fn flip(bytes: &mut [u8], n: u32)
    ensures after { bytes.new ≡ flipped bytes.old n }
{
    // By index: after `get_mut` a proof knows nothing of the other bytes.
    let i = (n / 8) as usize;
    if i < bytes.len() {
        bytes[i] ^= 1 << (n % 8);
    }
}

// Sets the first bytes to 0.
pub(crate) fn clear(bytes: &mut [u8], count: usize)
    requires { count ≤ length bytes.old }
    ensures after { bytes.new ≡ cleared count bytes.old }
{
    bytes[0..count].fill(0);
}

// The first bit of a byte that is 0, from one bit on; 8 where there is none.
fn clear_in(byte: u8, from: u32) -> u32
    requires { from < 8 }
    ensures value { FirstClear byte from result }
{
    from + (byte >> from).trailing_ones()
}

// The first bit of byte i that is 0, of those from bit `from` on.
#[tactic(auto, using(crate::proofs::Marks::full))]
fn first_clear_of(bytes: &[u8], i: u32, from: u32) -> Option<u32>
    requires fits { 8 * i + 8 ≤ 2 ^ 32 }
    requires reached { from < 8 * i + 8 }
    ensures value { MatchOption result (Taken (bits bytes.now) (max from (8 * i)) (8 * i + 8)) (λ n. FirstFree (bits bytes.now) (max from (8 * i)) (8 * i + 8) n) }
{
    let byte = byte_at(bytes, i);
    // A full byte is passed over whole, which is three times as fast.
    if byte == u8::MAX {
        return None;
    }
    let place = clear_in(byte, from.saturating_sub(8 * i));
    (place < 8).then(|| 8 * i + place)
}

// The first bit that is 0, in the bytes from one on and below another.
fn first_clear_in(bytes: &[u8], start: u32, end: u32) -> Option<u32>
    requires { 8 * end ≤ 2 ^ 32 }
    ensures value { MatchOption result (Taken (bits bytes.now) (8 * start) (8 * end)) (λ n. FirstFree (bits bytes.now) (8 * start) (8 * end) n) }
{
    (start..end).find_map(|i| first_clear_of(bytes, i, 8 * i))
}

// The first bit that is 0, from one bit on and below another. Only in the first byte some bits are passed over, so that
// the loop over the others has less to do.
pub(crate) fn first_clear(bytes: &[u8], from: u32, to: u32) -> Option<u32>
    ensures value { MatchOption result (Taken (bits bytes.now) from to) (λ n. FirstFree (bits bytes.now) from to n) }
{
    let near = from / 8;
    let end = to.div_ceil(8);
    first_clear_of(bytes, near, from)
        .or_else(|| first_clear_in(bytes, near + 1, end))
        .filter(|n| *n < to)
}
