// Blocks in lent memory, and pointers in the bytes of a block. A block is read where it lies, with no copy. The memory
// is a slice at each call and no struct around one, so that a caller who only reads may share it.
ghost use Rattle.std.specs.Prelude.{◌≡◌, ◌+◌, ◌*◌, ◌<◌, ◌≤◌, ◌⊎◌, length, MatchResult, OnErr};
ghost use Rattle.std.specs.List.{flat_map};
ghost use Rattle.faults.specs.declared.PoolCause.TheVariants.{NoPool};
ghost use Rattle.tree.specs.Calls.{Children};
ghost use Rattle.tree.specs.Paths.{filled, led, pointer_bytes, with_pointer};
ghost use Rattle.tree.specs.Steps.{LeadsOut, Put};
ghost use Rattle.tree.specs.Trees.{block, block_size, fan, Outside, pointer_in, word_at};

use faults::PoolCause;
use records::rows::Pointer;

// How many bytes a block has.
pub const BLOCK_BYTES: usize = 64;

// How many bytes of an indirect block a pointer has.
pub const POINTER_BYTES: usize = 8;

// How many pointers an indirect block has.
pub const FAN: u32 = 8;

// The number in four bytes, most significant first.
fn word(bytes: &[u8; BLOCK_BYTES], start: usize) -> u32
    requires { start + 4 ≤ block_size }
    ensures value { result ≡ word_at bytes.now start }
{
    u32::from_be_bytes(bytes[start..start + 4].try_into().unwrap())
}

// The pointer at a place of an indirect block; eight zero bytes are a hole. Pointers are another crate's and bytes are
// std's, so this and `encode` are functions: neither may have a method or a `From` here.
pub(crate) fn decode(bytes: &[u8; BLOCK_BYTES], place: usize) -> Option<Pointer>
    requires { place < fan }
    ensures value { result ≡ pointer_in bytes.now place }
{
    let block = word(bytes, POINTER_BYTES * place);
    let birth = word(bytes, POINTER_BYTES * place + 4);
    if block == 0 && birth == 0 {
        None
    } else {
        Some(Pointer { block, birth })
    }
}

// The two words of a pointer, as bytes; a hole is zero bytes.
fn encode(pointer: Option<Pointer>) -> [[u8; 4]; 2]
    ensures value { flat_map (λ word. word) result ≡ pointer_bytes pointer }
{
    let (block, birth) = pointer.map_or((0, 0), |pointer| (pointer.block, pointer.birth));
    [block.to_be_bytes(), birth.to_be_bytes()]
}

// Replaces the pointer at a place of an indirect block.
fn put_pointer(bytes: &mut [u8; BLOCK_BYTES], place: usize, pointer: Option<Pointer>)
    requires { place < fan }
    ensures after { bytes.new ≡ with_pointer bytes.old place pointer }
{
    let start = POINTER_BYTES * place;
    bytes[start..start + POINTER_BYTES].copy_from_slice(encode(pointer).as_flattened());
}

// A block that begins with a text, and has zero bytes after it.
pub(crate) fn filled_block(text: &[u8]) -> [u8; BLOCK_BYTES]
    requires { length text.now ≤ block_size }
    ensures value { result ≡ filled text.now }
{
    let mut block = [0; BLOCK_BYTES];
    block[..text.len()].copy_from_slice(text);
    block
}

// Where a block begins.
fn block_start(memory: &[u8], number: u32) -> Result<usize, PoolCause>
    ensures start { MatchResult result (λ start. (start ≡ block_size * number) × (start + block_size ≤ length memory.now)) (λ c. (c ≡ NoPool) × Outside memory.now number) }
{
    let start = BLOCK_BYTES * number as usize;
    if start + BLOCK_BYTES <= memory.len() {
        Ok(start)
    } else {
        Err(PoolCause::NoPool)
    }
}

// The bytes of a block.
pub fn read_block(memory: &[u8], number: u32) -> Result<&[u8; BLOCK_BYTES], PoolCause>
    ensures read { MatchResult result (λ bytes. bytes.now ≡ block memory.now number) (λ c. (c ≡ NoPool) × Outside memory.now number) }
{
    let start = block_start(memory, number)?;
    Ok(memory[start..].first_chunk().unwrap())
}

// The pointers of the block that a pointer leads to.
pub fn children(
    memory: &[u8],
    pointer: Pointer,
) -> Result<[Option<Pointer>; FAN as usize], PoolCause>
    ensures below { MatchResult result (λ below. Children memory.now pointer below) (λ c. (c ≡ NoPool) × Outside memory.now pointer.block) }
{
    let bytes = read_block(memory, pointer.block)?;
    let mut below = [None; FAN as usize];
    // By index: of an array that an iterator wrote a proof knows the length alone.
    for place in 0..FAN as usize {
        below[place] = decode(bytes, place);
    }
    Ok(below)
}

// Stores the bytes of a block.
pub(crate) fn store_block(
    memory: &mut [u8],
    number: u32,
    bytes: &[u8; BLOCK_BYTES],
) -> Result<(), PoolCause>
    ensures stored { MatchResult result (λ _. Put memory.old memory.new number bytes.now) (λ c. (c ≡ NoPool) × Outside memory.old number) }
    ensures unchanged { OnErr result (memory.new ≡ memory.old) }
{
    let start = block_start(memory, number)?;
    memory[start..start + BLOCK_BYTES].copy_from_slice(bytes);
    Ok(())
}

// The block that a pointer leads to; below a hole there are holes.
pub(crate) fn load(memory: &[u8], pointer: Option<Pointer>) -> Result<&[u8; BLOCK_BYTES], PoolCause>
    ensures loaded { MatchResult result (λ bytes. bytes.now ≡ led memory.now pointer) (λ c. (c ≡ NoPool) × LeadsOut memory.now pointer) }
{
    pointer.map_or(
        Ok(&[0; BLOCK_BYTES]),
        |pointer| read_block(memory, pointer.block),
    )
}

// Makes a block a copy of what a pointer leads to, with the pointer at a place replaced.
pub(crate) fn copy_with(
    memory: &mut [u8],
    old: Option<Pointer>,
    number: u32,
    place: usize,
    pointer: Option<Pointer>,
) -> Result<(), PoolCause>
    requires { place < fan }
    ensures copied { MatchResult result (λ _. Put memory.old memory.new number (with_pointer (led memory.old old) place pointer)) (λ c. (c ≡ NoPool) × (LeadsOut memory.old old ⊎ Outside memory.old number)) }
    ensures unchanged { OnErr result (memory.new ≡ memory.old) }
{
    let mut bytes = *load(memory, old)?;
    put_pointer(&mut bytes, place, pointer);
    store_block(memory, number, &bytes)
}
