// The abstract states of a pattern, as they are listed before a worklist goes through them.
ghost use Rattle.tables.specs.Listed.{Listed};

use crate::pattern::Pattern;

// The pattern, the weights of its variables, and the words of its states by index.
#[derive(Clone, Copy)]
pub(crate) struct States<'a> {
    pub(crate) pattern: &'a Pattern<'a>,
    pub(crate) weights: &'a [u16; 16],
    pub(crate) words: &'a [u64],
    ghost listed: { Listed pattern.now weights.now words.now },
}
