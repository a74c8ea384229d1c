// A memory of results: examining a state with a depth fails, or succeeds, after as many examinations wherever it is made again. A slot has the state
// and a word: the depth (8 bits), the number of examinations (20), the plan's size (20; 0: it fails) and its first byte.
// A slot with no examinations holds nothing, and a result that finds its slot taken replaces what is there. Asks for a memory of at least one
// slot; all slots are used where their number is a power of two.
// Stays: `as` of a word into an index, and of a part of it into a smaller number: a word has no `From` into either, and `try_from` has a case that never
// happens. `d < 256`, here, in `written` and in `rounds`: a slot's byte needs the bound of this one number, and a type for it would be made at every call.
// `1 ≤ length`, here and in `written`: a struct that lends slots on says in each contract that they are the same ones before and after, which is longer.
ghost use Rattle.std.specs.Prelude.{◌≡◌, ◌<◌, ◌≤◌, true, length};
ghost use Rattle.search.specs.Memory.{stored, result_word, Recalls, Noted};

// Stays: four numbers in one word: with a field for each a slot is half as large again, and a short search, which fills the small memory once, takes
// 1.09 of the instructions, one that fills the large one 1.07 (a search may not become slower).
#[derive(Clone, Copy)]
pub(crate) struct Slot {
    pub state: u64,
    pub word: u64,
}

pub(crate) const EMPTY: Slot = Slot { state: 0, word: 0 };

// After how many examinations a state ends, the size of its plan (0: it fails) and the plan's first byte.
// Stays: a size of 0 for a failure: in the slots of `written` the same cell is the place of a plan's first byte, which may be 0, so that an Option made
// of the cell here would lose that place.
#[derive(Clone, Copy)]
pub(crate) struct Recalled {
    pub made: u32,
    pub size: u32,
    pub first: u8,
}

// The slot for a state with a depth: any will do, since it is asked for both. The products spread the states well.
fn slot_of(s: u64, d: u32, slots: usize) -> usize
    requires { 1 ≤ slots }
    ensures { result < slots }
{
    let low = s % 4294967296;
    let high = s / 4294967296;
    let x = low * 1640531535 + high * 1181783497 + u64::from(d % 256) * 2654435769;
    (x ^ (x >> 29)) as usize & (slots - 1)
}

// What is known of examining state s with depth d, if it takes at most `room` examinations.
pub(crate) fn recall(memory: &[Slot], s: u64, d: u32, room: u32) -> Option<Recalled>
    requires { 1 ≤ length memory.now }
    ensures { Recalls memory.now s d room result }
{
    let slot = memory[slot_of(s, d, memory.len())];
    if slot.state != s || slot.word % 256 != u64::from(d) {
        return None;
    }
    let made = (slot.word / 256 % 1048576) as u32;
    if made == 0 || made > room {
        return None;
    }
    Some(Recalled {
        made,
        size: (slot.word / 268435456 % 1048576) as u32,
        first: (slot.word / 281474976710656 % 256) as u8,
    })
}

// The word of a slot.
fn result_word(d: u32, k: u32, n: u32, b: u8) -> u64
    requires { (d < 256) × (k < 1048576) × (n < 1048576) }
    ensures { result ≡ result_word d k n b }
{
    u64::from(d) + 256 * u64::from(k) + 268435456 * u64::from(n) + 281474976710656 * u64::from(b)
}

// Examining state s with depth d ends after k examinations, with a plan of n bytes whose first is b; with none it fails.
pub(crate) fn note(memory: &mut [Slot], s: u64, d: u32, k: u32, n: u32, b: u8)
    requires { (1 ≤ length memory.old) × (d < 256) × (k < 1048576) × (n < 1048576) }
    ensures { Noted memory.old memory.new (stored s d k n b) }
{
    let word = result_word(d, k, n, b);
    memory[slot_of(s, d, memory.len())] = Slot { state: s, word };
}

// Whether most of some slots are taken; so are the others then, since the products spread the states. Each counts once.
fn is_crowded(memory: &[Slot]) -> bool
    ensures { result ≡ true → 7 ≤ length memory.now }
{
    memory.iter().take(8).filter(|slot| slot.word != 0).count() > 6
}

// Whether a memory is too small for rounds that have made c examinations, more than `most`. How crowded it is carries no proof.
pub(crate) fn is_outgrown(memory: &[Slot], most: u32, c: u32) -> bool
    ensures { result ≡ true → most < c }
{
    if most < c {
        return is_crowded(memory);
    }
    false
}
