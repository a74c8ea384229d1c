// The record that a text fills, as a type: it never has more than 16 variables. Clauses see its cells.
ghost use Rattle.std.specs.Prelude.{◌≡◌, true, ◌+◌, ◌<◌, ◌≤◌, length, get_or, set, replicate};
ghost use Rattle.std.proofs.lemmas.List.Edits.{sets};
ghost use Rattle.task_record.specs.Layout.{record_size, at_variables, at_budget};
ghost use Rattle.reader.specs.Grammar.{blank, budget_bytes};
ghost use Rattle.reader.specs.Lists.{pair_fits};

use crate::blank::{Record, clear_record};
use crate::grammar::put_budget;
use crate::lists::allowed;
use crate::places::Row;
use crate::store::fill;
use std::marker::Model;
use task_record::layout::{AT_VARIABLES, ROW_SIZE};

#[derive(Drop)]
pub struct Draft {
    pub cells: Record,
}

impl Model for Draft {
    ghost use Rattle.std.specs.Prelude.{ℕ, ◌≤◌, List, get_or};
    ghost use Rattle.task_record.specs.Layout.{at_variables};

    ghost Value = { List ℕ };

    ghost view = { λ f. f.cells };

    ghost invariant = { λ f. get_or f.cells at_variables 0 ≤ 16 };
}

impl Draft {
    // Nothing is used.
    pub(crate) fn clear(&mut self)
        ensures { self.new ≡ blank }
    {
        clear_record(&mut self.cells);
    }

    pub(crate) fn variables(&self) -> usize
        ensures { (result ≡ get_or self.now at_variables 0) × (result ≤ 16) }
    {
        usize::from(self.cells[AT_VARIABLES])
    }

    pub(crate) fn cell(&self, at: usize) -> u8
        requires { at < record_size }
        ensures { result ≡ get_or self.now at 0 }
    {
        self.cells[at]
    }

    // Whether a pair keeps the rules of a list, where no variable below `next` may come.
    pub(crate) fn allows(&self, next: usize, v: usize, x: usize) -> bool
        ensures { result ≡ true → (pair_fits self.now next v x ≡ true) × (v < 16) × (x < 255) }
    {
        allowed(&self.cells, next, v, x)
    }

    // One cell.
    pub(crate) fn store(&mut self, at: usize, x: u8)
        requires { (at < record_size) × (at ≡ at_variables → x ≤ 16) }
        ensures { (self.new ≡ set self.old at x) × (get_or self.new at 0 ≡ x) }
    {
        self.cells[at] = x;
    }

    // The cells of a row, all the same.
    pub(crate) fn fill_row(&mut self, row: Row, x: u8)
        ensures { (self.new ≡ sets self.old row.at (replicate 16 x)) × (length self.new ≡ record_size) }
    {
        fill(&mut self.cells, row.at, ROW_SIZE, x);
    }

    pub(crate) fn store_budget(&mut self, n: usize)
        ensures { self.new ≡ sets self.old at_budget (budget_bytes n) }
    {
        put_budget(&mut self.cells, n);
    }
}
