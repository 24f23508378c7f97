// Questions about a free range, the range of all blocks, and the ranges that come of taking a range's first block or
// giving one back beside it. Each answers on any range, also on one that no map holds. A length is 0 where there is no
// range, since `join` adds it up. They are functions, as `FreeRange` is another crate's.
ghost use Rattle.std.specs.Prelude.{◌≡◌, ◌+◌, ◌^◌, ◌<◌, not, ◌&&◌, ◌==◌, nat_lt};
ghost use Rattle.ranges.specs.Ranges.{within, has, long, reach, all, rest_of, joined};

use records::ranges::FreeRange;

// Whether block n lies in the range.
pub(crate) fn holds(range: FreeRange, n: u32) -> bool
    ensures value { result ≡ within range n }
{
    range.first <= n && n - range.first < range.length
}

// Whether the range ends right before block n.
fn meets(range: FreeRange, n: u32) -> bool
    ensures value { result ≡ (range.first + range.length == n) }
{
    range.first <= n && n - range.first == range.length
}

// Whether a take prefers the range to one that begins before it.
pub(crate) fn is_longer(range: FreeRange, other: FreeRange) -> bool
    ensures value { result ≡ nat_lt other.length range.length }
{
    range.length > other.length
}

// Whether block n is owned, where `before` is the last range that begins at or before it.
pub(crate) fn is_out(size: u32, before: Option<FreeRange>, n: u32) -> bool
    ensures value { result ≡ (nat_lt n size && not (has before n)) }
{
    n < size && !before.is_some_and(|range| holds(range, n))
}

// The length of the range before block n where it ends there, else 0.
pub(crate) fn left_of(before: Option<FreeRange>, n: u32) -> u32
    ensures value { result ≡ reach before n }
{
    length_of(before.filter(|range| meets(*range, n)))
}

// The length of the range after a block, or 0 where there is none.
pub(crate) fn length_of(after: Option<FreeRange>) -> u32
    ensures value { result ≡ long after }
{
    after.map_or(0, |range| range.length)
}

// The range of all blocks.
pub(crate) fn whole(size: u32) -> FreeRange
    ensures value { result ≡ all size }
{
    FreeRange {
        first: 0,
        length: size,
    }
}

// The range without its first block.
pub(crate) fn rest(range: FreeRange) -> FreeRange
    ensures value { range.first + 1 < 2 ^ 32 → result ≡ rest_of range }
{
    FreeRange {
        first: range.first.saturating_add(1),
        length: range.length.saturating_sub(1),
    }
}

// Block n with so many blocks before and after it.
pub(crate) fn join(left: u32, n: u32, right: u32) -> FreeRange
    ensures value { left + 1 + right < 2 ^ 32 → result ≡ joined left n right }
{
    FreeRange {
        first: n.saturating_sub(left),
        length: left.saturating_add(1).saturating_add(right),
    }
}
