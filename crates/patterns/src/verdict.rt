// The additivity verdict: whether each action affects at most one pattern.
ghost use Rattle.std.specs.Prelude.{◌≡◌, ℕ, ◌+◌, ◌*◌, ◌≤◌, ◌<◌, true, cond, eqb, length, get_or};
ghost use Rattle.planning.specs.Pattern.{counted_cell, verdict};
ghost use Rattle.task_record.specs.Layout.{at_pattern};
ghost use Rattle.task_record.specs.Numbers.{action_count, pattern_count};
ghost use Rattle.task_record.specs.TaskOf.{cells_at, action_of, task_of, patterns_of};
ghost use Rattle.patterns.specs.Sets.{Lone, touched_set};
ghost use Rattle.patterns.specs.Additivity.{additivity_of, additivity};
ghost use Rattle.patterns.specs.Answers.{additivity_numbers, additivity_by_lines};

use std::marker::Model;
use task_record::cells::{
    action_count, counted_cell, pattern_cells, pattern_count, precondition_cells, state_of,
};
use task_record::layout::{UNNAMED, at_outcome};
use task_record::refusal::Refusal;
use task_record::sound::SoundRecord;

// The lowest action that affects two patterns, with the lowest two.
#[derive(Clone, Copy, PartialEq, Eq)]
pub struct Conflict {
    pub action: u64,
    pub lower: u64,
    pub upper: u64,
}

// A need that demands nothing.
const OPEN: [u8; 16] = [UNNAMED; 16];

// The set where the cell names its variable.
fn named(cell: u8, set: u8) -> u8
    ensures { result ≡ cond (eqb cell 255) 0 set }
{
    if cell == UNNAMED { 0 } else { set }
}

// What the outcomes of an action have in common at the cells of a variable, the first at offset `at`, as far as they count: 255 where none of them
// gives it a value other than the one that the need demands. All eight rows are read, since those that are not used name nothing.
// Stays: a `for` over numbers, since the cells stand 16 apart: `rec[at..].iter().step_by(16).take(8)` says no more than the offset does.
fn common_cell(rec: &[u8], need: u8, at: usize) -> u8
    requires { (at + 112 < length rec.now) × (at ≤ 65536) }
    ensures low { (k : ℕ) → k < 8 → result ≤ counted_cell need (get_or rec.now (at + 16 * k) 0) }
    ensures unnamed { ((k : ℕ) → k < 8 → counted_cell need (get_or rec.now (at + 16 * k) 0) ≡ 255) → result ≡ 255 }
    ensures bytes { (k : ℕ) → counted_cell need (get_or rec.now k 0) ≤ 255 }
{
    let mut low = UNNAMED;
    for k in 0..8usize {
        low &= counted_cell(need, rec[at + 16 * k]);
    }
    low
}

// Whether a set has at most one pattern.
#[tactic(auto, unfolding(crate::specs::Sets::Lone))]
fn is_lone(set: u8) -> bool
    ensures { result ≡ true → Lone set }
{
    set == 0 || set & (set - 1) == 0
}

// For each variable of a sound record the patterns that it is in, pattern 0 lowest.
#[derive(Drop)]
struct Members<'a> {
    rec: &'a [u8],
    sets: [u8; 16],
}

impl<'a> Model for Members<'a> {
    ghost use Rattle.std.specs.Prelude.{List, ℕ};
    ghost use Rattle.task_record.specs.Record.{Sound};
    ghost use Rattle.task_record.specs.Window.{Sixteen};
    ghost use Rattle.patterns.specs.Sets.{member_set};

    ghost Value = { List ℕ };

    ghost view = { λ s. s.rec.now };

    ghost invariant = { λ s. (Sound s.rec.now) × (Sixteen (member_set s.rec.now) s.sets) };
}

impl<'a> Members<'a> {
    // A row at a time, the highest pattern first.
    fn of(record: &SoundRecord<'a>) -> Members<'a>
        ensures { result ≡ record.now }
    {
        let mut sets = [0u8; 16];
        for p in (0..pattern_count(record.cells)).rev() {
            let cells = pattern_cells(record.cells, p);
            for (v, set) in sets.iter_mut().enumerate() {
                *set = *set * 2 + u8::from(cells[v] == 1);
            }
        }
        Members {
            rec: record.cells,
            sets,
        }
    }

    // The patterns with a variable to which an outcome of an action gives a value that counts by a need, all sixteen variables at once.
    // Stays: the bound of m as a clause: the index needs it, and a type for it would be made of the number at every call.
    fn touched_set(&self, m: u8, need: [u8; 16]) -> u8
        requires { m < action_count self.now }
        ensures { result ≡ touched_set need self.now m }
    {
        let at = at_outcome(m, 0);
        let mut touched = 0u8;
        for (v, set) in self.sets.iter().enumerate() {
            touched |= named(common_cell(self.rec, need[v], at + v), *set);
        }
        touched
    }

    // The lowest conflict. Most actions name variables of one pattern at the most, whatever their needs demand, so that is asked first: it takes 40
    // instructions in place of 64. The affected patterns of another action are found once; `left` holds those from the current pattern on. After the
    // first that is affected the next one makes the conflict, and where there is none there is no other pair.
    // Stays: the form that document 01 names: "Loops over moves and pattern pairs left by a label at the first conflicting move".
    fn scan(&self) -> Option<Conflict>
        ensures { result ≡ additivity_of (verdict (task_of self.now) (patterns_of self.now)) }
    {
        let actions = action_count(self.rec);
        let patterns = pattern_count(self.rec);
        if patterns < 2 {
            return None;
        }
        let mut found = None;
        'actions: for m in 0..actions {
            if is_lone(self.touched_set(m, OPEN)) {
                continue;
            }
            let mut left = self.touched_set(m, state_of(precondition_cells(self.rec, m)));
            if is_lone(left) {
                continue;
            }
            for p in 0..patterns {
                if left % 2 == 1 {
                    for q in p + 1..patterns {
                        left /= 2;
                        if left % 2 == 1 {
                            found = Some(Conflict {
                                action: u64::from(m),
                                lower: u64::from(p),
                                upper: u64::from(q),
                            });
                            break 'actions;
                        }
                    }
                    continue 'actions;
                }
                left /= 2;
            }
        }
        found
    }
}

// The first conflict of a record's patterns, or none where they are additive.
pub(crate) fn first_conflict(record: &SoundRecord) -> Option<Conflict>
    ensures { result ≡ additivity_of (verdict (task_of record.now) (patterns_of record.now)) }
{
    Members::of(record).scan()
}

// The verdict on the patterns of a record that was not checked yet.
#[tactic(auto, using(crate::proofs::ByLines::additivity_told))]
pub fn additive(rec: &[u8]) -> Result<Option<Conflict>, Refusal>
    ensures value { result ≡ additivity rec.now }
    ensures numbers { additivity_numbers result ≡ additivity_by_lines rec.now }
{
    let record = SoundRecord::new(rec)?;
    Ok(first_conflict(&record))
}
