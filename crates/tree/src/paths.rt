// Paths from a root to a position: followed, surveyed, and replaced.
ghost use Rattle.std.specs.Prelude.{◌≡◌, ◌+◌, ◌^◌, ◌<◌, ◌≤◌, true, false, length, IfErr, MatchResult};
ghost use Rattle.faults.specs.declared.PoolCause.TheVariants.{NoPool};
ghost use Rattle.tree.specs.Calls.{InRange, Links, Rewrites, Spares, taken};
ghost use Rattle.tree.specs.Paths.{HolesBeside, new_at, PointerBeside, Surveyed};
ghost use Rattle.tree.specs.Trees.{at, block_size, digit, fan, Lost, pointer_in};

use crate::memory::{
    BLOCK_BYTES, FAN, copy_with, decode, filled_block, load, read_block, store_block,
};
use faults::PoolCause;
use records::rows::Pointer;

// The most levels that a tree has above its data.
pub const MOST_HEIGHT: u32 = 4;

// How many pointers a path has at most, with the root and the data.
pub const LEVELS: usize = MOST_HEIGHT as usize + 1;

// A position of a tree, with the tree's height: the path that leads to it from the root.
#[derive(Clone, Copy, Debug, PartialEq, Eq)]
pub struct Path {
    pub height: u32,
    pub position: u32,
}

// The old pointers of a path, from the root down, and how many of its levels stay where its position becomes a hole.
// Past the height there are holes, so an array says it all, and the route is plain data.
#[derive(Clone, Copy, Debug, PartialEq, Eq)]
pub struct Route {
    pub path: Path,
    pub old: [Option<Pointer>; LEVELS],
    pub kept: usize,
}

// The blocks of a new path, from the root down, and the group that they are born in.
#[derive(Clone, Copy, Debug, PartialEq, Eq)]
pub struct FreshPath<'a> {
    pub blocks: &'a [u32],
    pub group: u32,
}

impl Path {
    // Which pointer the path follows at a depth.
    fn digit(self, depth: usize) -> usize
        requires { (depth < self.height) × (self.height ≤ 4) }
        ensures value { result ≡ digit self.height self.position depth }
    {
        let level = self.height - 1 - depth as u32;
        (self.position / FAN.pow(level) % FAN) as usize
    }
}

impl FreshPath<'_> {
    // The new pointer of the path at a depth; below the new blocks there are holes.
    fn pointer(self, depth: usize) -> Option<Pointer>
        ensures value { result ≡ new_at (taken self.entry) self.entry.group (length self.entry.blocks.now) depth }
    {
        self.blocks.get(depth).map(|&block| Pointer {
            block,
            birth: self.group,
        })
    }
}

// The pointer at a depth, where 0 is the root, and an index; a hole leads to holes.
pub fn descend(
    memory: &[u8],
    root: Option<Pointer>,
    depth: u32,
    index: u32,
) -> Result<Option<Pointer>, PoolCause>
    ensures found { MatchResult result (λ q. q ≡ at memory.now root depth index) (λ c. (c ≡ NoPool) × (index < fan ^ depth → Lost memory.now root depth)) }
{
    if depth == 0 {
        return Ok(root);
    }
    let Some(up) = descend(memory, root, depth - 1, index / FAN)? else {
        return Ok(None);
    };
    let bytes = read_block(memory, up.block)?;
    Ok(decode(bytes, (index % FAN) as usize))
}

// Whether an indirect block has a pointer at another place.
fn has_other(bytes: &[u8; BLOCK_BYTES], place: usize) -> bool
    ensures holes { result ≡ false → HolesBeside (pointer_in bytes.now) place }
    ensures other { result ≡ true → PointerBeside (pointer_in bytes.now) place }
{
    (0..FAN as usize).any(|other| other != place && decode(bytes, other).is_some())
}

// Goes down a path.
pub fn survey(memory: &[u8], root: Option<Pointer>, path: Path) -> Result<Route, PoolCause>
    ensures surveyed { MatchResult result (λ w. (path.height ≤ 4) × (w.path ≡ path) × Surveyed memory.now root path.height path.position w.old w.kept) (λ c. (c ≡ NoPool) × (path.height ≤ 4 → path.position < fan ^ path.height → Lost memory.now root path.height)) }
{
    if path.height > MOST_HEIGHT {
        return Err(PoolCause::NoPool);
    }
    let mut old = [None; LEVELS];
    old[0] = root;
    let mut here = root;
    let mut kept = 0;
    // By index: of an array that an iterator wrote a proof knows the length alone.
    for depth in 0..path.height as usize {
        // Below a hole there are holes, and no other pointers.
        if here.is_none() {
            break;
        }
        let place = path.digit(depth);
        let bytes = load(memory, here)?;
        if has_other(bytes, place) {
            kept = depth + 1;
        }
        here = decode(bytes, place);
        old[depth + 1] = here;
    }
    Ok(Route { path, old, kept })
}

// Writes the indirect blocks of a new path.
fn relink(memory: &mut [u8], route: &Route, fresh: FreshPath<'_>) -> Result<(), PoolCause>
    requires { (route.now.path.height ≤ 4) × (length fresh.blocks.now ≤ route.now.path.height + 1) }
    ensures linked { Links memory.old memory.new route.entry.now fresh.entry result }
    ensures spared { Spares memory.old memory.new fresh.entry }
    ensures cause { IfErr result (λ c. c ≡ NoPool) }
{
    let indirect = fresh.blocks.len().min(route.path.height as usize);
    // The depth is a number too, so a zip with the old pointers would be no plainer.
    for (depth, &block) in fresh.blocks[..indirect].iter().enumerate() {
        let place = route.path.digit(depth);
        let below = fresh.pointer(depth + 1);
        copy_with(memory, route.old[depth], block, place, below)?;
    }
    Ok(())
}

// Writes the new path of a route, and answers the new root. An indirect block is a copy of the old one with the new
// pointer of the path; the block of the data holds the text, with zero bytes after it. Whatever the answer, no block
// but the fresh ones changes.
pub fn rewrite(
    memory: &mut [u8],
    route: &Route,
    fresh: FreshPath<'_>,
    text: &[u8],
) -> Result<Option<Pointer>, PoolCause>
    ensures rewritten { InRange route.entry.now fresh.entry text.now → Rewrites memory.old memory.new route.entry.now fresh.entry text.now result }
    ensures spared { Spares memory.old memory.new fresh.entry }
    ensures range { MatchResult result (λ _. InRange route.entry.now fresh.entry text.now) (λ c. c ≡ NoPool) }
{
    let height = route.path.height as usize;
    if route.path.height > MOST_HEIGHT
        || fresh.blocks.len() > height + 1
        || text.len() > BLOCK_BYTES
    {
        return Err(PoolCause::NoPool);
    }
    relink(memory, route, fresh)?;
    if let Some(&block) = fresh.blocks.get(height) {
        store_block(memory, block, &filled_block(text))?;
    }
    Ok(fresh.pointer(0))
}
