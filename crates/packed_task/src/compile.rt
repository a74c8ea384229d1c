// The words of an action in a compiled task, from its cells in the record.
ghost use Rattle.std.specs.Prelude.{◌≡◌, ◌+◌, ◌<◌, ◌≤◌, length, slice_set};
ghost use Rattle.planning.specs.Pattern.{counted};
ghost use Rattle.task_record.specs.Layout.{at_precondition, at_outcome};
ghost use Rattle.task_record.specs.Numbers.{action_count};
ghost use Rattle.task_record.specs.TaskOf.{cells_at, action_of};
ghost use Rattle.packed_task.specs.Packed.{pack_by, naming, leaving, setting};
ghost use Rattle.packed_task.specs.Compiling.{outcome_word, ActionCompiled};

use crate::layout::{
    ACTION_WORDS, IN_COUNT, IN_KEPT, IN_VALUE, IN_WEIGHT, OUTCOME_WORDS, TASK_WORDS,
};
use crate::packed::{DigitRule, pack};
use crate::words::{Words, words_of};
use task_record::cells::{
    action_weight, counted_cell, outcome_cells, outcome_count, precondition_cells,
};
use task_record::layout::UNNAMED;
use task_record::sound::SoundRecord;

// The cells of an outcome as they count, by those of its action's need.
fn counted_cells(need: &[u8], outcome: &[u8]) -> [u8; 16]
    requires { (length need.now ≡ 16) × (length outcome.now ≡ 16) }
    ensures { result ≡ counted need.now outcome.now }
{
    let mut cells = [UNNAMED; 16];
    for (v, cell) in cells.iter_mut().enumerate() {
        *cell = counted_cell(need[v], outcome[v]);
    }
    cells
}

// The two words of outcome k, 0 where there is none.
fn outcome_words(rec: &[u8], need: &[u8], m: u8, k: u8) -> Words
    requires { (need.now ≡ cells_at rec.now (at_precondition m)) × (length need.now ≡ 16) × (at_outcome m k + 16 ≤ length rec.now) }
    ensures { (result.keep ≡ outcome_word leaving rec.now m k) × (result.value ≡ outcome_word setting rec.now m k) }
{
    if k < outcome_count(rec, m) {
        return words_of(&counted_cells(need, outcome_cells(rec, m, k)));
    }
    Words { keep: 0, value: 0 }
}

fn put_outcome(rec: &[u8], need: &[u8], m: u8, k: u8, task: &mut [u64; TASK_WORDS], at: usize)
    requires cells { (need.now ≡ cells_at rec.now (at_precondition m)) × (length need.now ≡ 16) × (at_outcome m k + 16 ≤ length rec.now) }
    requires room { at + 1 < TASK_WORDS }
    ensures { task.new ≡ slice_set (slice_set task.old at (outcome_word leaving rec.now m k)) (at + 1) (outcome_word setting rec.now m k) }
{
    let words = outcome_words(rec, need, m, k);
    task[at] = words.keep;
    task[at + 1] = words.value;
}

// The digits that a precondition or a goal names, given those that it does not name.
pub(crate) fn named_digits(pre: &[u8], keep: u64) -> u64
    requires { (length pre.now ≤ 16) × (keep ≡ pack_by leaving pre.now) }
    ensures { result ≡ pack_by naming pre.now }
{
    if pre.len() == 16 {
        return u64::MAX - keep;
    }
    pack(DigitRule::Naming, pre)
}

// The four words before the outcomes.
fn put_head(pre: &[u8], count: u64, weight: u64, task: &mut [u64; TASK_WORDS], at: usize)
    requires { (length pre.now ≤ 16) × (at + IN_WEIGHT < TASK_WORDS) }
    ensures { task.new ≡ slice_set (slice_set (slice_set (slice_set task.old at (pack_by naming pre.now)) (at + IN_VALUE) (pack_by setting pre.now)) (at + IN_COUNT) count) (at + IN_WEIGHT) weight }
{
    let words = words_of(pre);
    task[at] = named_digits(pre, words.keep);
    task[at + IN_VALUE] = words.value;
    task[at + IN_COUNT] = count;
    task[at + IN_WEIGHT] = weight;
}

// The words of action m, and no other.
pub(crate) fn compile_action(record: &SoundRecord, m: u8, task: &mut [u64; TASK_WORDS])
    requires { m < action_count record.now }
    ensures { ActionCompiled task.old task.new m (action_of record.now m) }
{
    // Read once: read anew for each outcome, they cost a record of a dozen actions 425 instructions more.
    let rec = record.cells;
    let at = ACTION_WORDS * usize::from(m);
    let need = precondition_cells(rec, m);
    put_head(
        need,
        u64::from(outcome_count(rec, m)),
        u64::from(action_weight(rec, m)),
        task,
        at,
    );
    for k in 0..8u8 {
        put_outcome(
            rec,
            need,
            m,
            k,
            task,
            at + IN_KEPT + OUTCOME_WORDS * usize::from(k),
        );
    }
}
