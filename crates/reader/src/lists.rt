// The three kinds of list, each read in one pass into its sixteen cells. The pass remembers both kinds of fault, so that the form of the whole list
// goes before its rules without a second pass. Assumes nothing.
ghost use Rattle.std.specs.Prelude.{◌≡◌, true, ◌<◌, get_or};
ghost use Rattle.task_record.specs.Layout.{at_variables};
ghost use Rattle.reader.specs.Lists.{pair_from, item_of, pair_fits, pair_step, no_items, list_of, is_values, unnamed, whole_list};

use crate::decimal::number;
use crate::pieces::{COLON, COMMA, cut};
use crate::store::{cell_at, put};
use task_record::layout::{AT_SIZES, AT_VARIABLES, ROW_SIZE, UNNAMED};

// A variable and its value.
#[derive(Clone, Copy)]
pub struct Pair {
    pub variable: usize,
    pub value: usize,
}

// variable:value pairs, the values of all variables, or variables.
#[derive(Clone, Copy)]
pub enum Kind {
    Pairs,
    Values,
    Members,
}

// What the pieces so far say: whether each had the form, whether each kept the list's rules, the lowest variable that may come, the cells.
// Stays: a flag for each kind of fault in place of the fault that goes first, since the definition of a list's text speaks of both.
#[derive(Clone, Copy)]
pub struct Gathered {
    pub form: bool,
    pub list: bool,
    pub next: usize,
    pub cells: [u8; ROW_SIZE],
}

// What two numbers say.
fn join(v: Option<usize>, x: Option<usize>) -> Option<Pair>
    ensures { result ≡ pair_from v x }
{
    let variable = v?;
    let value = x?;
    Some(Pair { variable, value })
}

// What a piece of a list says, where `next` is the variable that comes next.
fn item_of(kind: Kind, next: usize, piece: &[u8]) -> Option<Pair>
    ensures { result ≡ item_of kind next piece.now }
{
    match kind {
        Kind::Pairs => {
            let parts = cut(piece, COLON);
            let v = number(parts.0);
            let x = number(parts.1);
            join(v, x)
        }
        Kind::Values => {
            let x = number(piece);
            join(Some(next), x)
        }
        Kind::Members => {
            let v = number(piece);
            join(v, Some(1))
        }
    }
}

// Whether a pair keeps the list's rules.
#[tactic(auto, unfolding(crate::specs::Lists::pair_fits))]
pub(crate) fn allowed(rec: &[u8], next: usize, v: usize, x: usize) -> bool
    ensures value { result ≡ pair_fits rec.now next v x }
    ensures bounds { result ≡ true → (v < get_or rec.now at_variables 0) × (v < 255) × (x < 255) }
{
    next <= v && v < cell_at(rec, AT_VARIABLES) && x < cell_at(rec, AT_SIZES + v)
}

impl Kind {
    // The cell of a variable that a list does not name.
    pub(crate) fn unnamed(self) -> u8
        ensures { result ≡ unnamed self }
    {
        match self {
            Kind::Pairs => UNNAMED,
            Kind::Values => UNNAMED,
            Kind::Members => 0,
        }
    }

    pub(crate) fn is_values(self) -> bool
        ensures { result ≡ is_values self }
    {
        matches!(self, Kind::Values)
    }

    // Whether a list of values has one for each of n variables.
    pub(crate) fn is_whole(self, n: usize, next: usize) -> bool
        ensures { result ≡ whole_list n self next }
    {
        match self {
            Kind::Pairs => true,
            Kind::Values => next == n,
            Kind::Members => true,
        }
    }
}

impl Gathered {
    // Nothing read yet.
    fn new(kind: Kind) -> Gathered
        ensures { result ≡ no_items kind }
    {
        Gathered {
            form: true,
            list: true,
            next: 0,
            cells: [kind.unnamed(); ROW_SIZE],
        }
    }

    // One piece more.
    // Stays: `as` at a value, since an index has no `From` into a byte, and `try_from` would have a case that never comes.
    fn add(&mut self, rec: &[u8], piece: Option<Pair>)
        ensures { self.new ≡ pair_step rec.now self.old piece }
    {
        match piece {
            None => {
                self.form = false;
            }
            Some(pair) => {
                let variable = pair.variable;
                let value = pair.value;
                if allowed(rec, self.next, variable, value) {
                    put(&mut self.cells, variable, value as u8);
                    self.next = variable + 1;
                } else {
                    self.list = false;
                }
            }
        }
    }
}

// The text of a list, read with the number of variables and the sizes of a record.
pub(crate) fn read_list(rec: &[u8], kind: Kind, text: &[u8]) -> Gathered
    ensures { result ≡ list_of rec.now kind text.now }
{
    let mut gathered = Gathered::new(kind);
    if text.is_empty() && !kind.is_values() {
        return gathered;
    }
    for piece in text.split(|b| *b == COMMA) {
        let item = item_of(kind, gathered.next, piece);
        gathered.add(rec, item);
    }
    gathered
}
