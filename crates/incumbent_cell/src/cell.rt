//! The cell.
ghost use Rattle.std.specs.Prelude.{◌≡◌};

use crate::packing::{NEWEST, OPENING};
use crate::pass::{CellPass, Known};
use crate::{Memory, answer_of, code_of};
use atomic_table::{Join, Play, Split, Table, TableRule};
use std::alloc::{Allocator, Global};

struct Incumbent;

impl TableRule<(), Known, ()> for Incumbent {
    ghost use Rattle.incumbent_cell.specs.Knowledge.{Kept, knows_nothing};

    ghost holds = { λ _. Kept };

    ghost first = { λ _. knows_nothing };
}

struct Put;

impl Play<(), Known> for Put {
    ghost use Rattle.incumbent_cell.specs.Knowledge.{Puts};

    ghost then = { Puts };
}

struct Find;

impl Play<(), Known> for Find {
    ghost use Rattle.incumbent_cell.specs.Knowledge.{Finds};

    ghost then = { Finds };
}

struct Halves;

impl Split<Known> for Halves {
    ghost use Rattle.incumbent_cell.specs.Knowledge.{halved};

    ghost left = { halved };

    ghost right = { halved };
}

struct Both;

impl Join<Known> for Both {
    ghost use Rattle.incumbent_cell.specs.Knowledge.{joined_known, spent};

    ghost both = { joined_known };

    ghost spent = { spent };
}

/// The least cost of the newest edition that was put, in one word.
#[derive(Drop)]
pub struct Least<A: Allocator = Global> {
    table: Table<(), Known, (), Incumbent, A>,
    ghost one_word: { table.shared.table_id.words ≡ 1 },
    ghost no_slot: { table.shared.table_id.slots ≡ 0 },
}

impl<A: Allocator> Least<A> {
    ghost use Rattle.std.specs.Prelude.{◌≡◌, ℕ, ◌≤◌, IfOk};
    ghost use Rattle.incumbent_cell.specs.Code.{packed, edition_in, code_cost};
    ghost use Rattle.incumbent_cell.specs.Knowledge.{knows_nothing, with_put, with_found_code, halved, joined_known, Stands};
    ghost use Rattle.incumbent_cell.specs.Cell.{cell_of, own_cell, knowledge_of};

    /// A cell with nothing put, and its first pass.
    pub fn new(alloc: A) -> Result<(Least<A>, CellPass), Memory>
        ensures { IfOk result (λ made. (own_cell made.1 ≡ cell_of made.0)
            × (knowledge_of made.1 ≡ knows_nothing)) }
    {
        let (table, seat) = Table::of_words(alloc, &[OPENING], &())?;
        Ok((Least { table }, CellPass { seat }))
    }

    /// A second pass, for another thread, which begins with what this one knows.
    pub fn split(&self, pass: &mut CellPass) -> CellPass
        requires { own_cell pass.old ≡ cell_of self.now }
        ensures cell { (own_cell pass.new ≡ own_cell pass.old)
            × (own_cell result ≡ own_cell pass.old) }
        ensures known { (knowledge_of pass.new ≡ halved (knowledge_of pass.old))
            × (knowledge_of result ≡ halved (knowledge_of pass.old)) }
    {
        let seat = self.table.shared.split_seat::<Halves>(&mut pass.seat);
        CellPass { seat }
    }

    /// Puts together what two passes know, and ends the second.
    pub fn join(&self, pass: &mut CellPass, other: CellPass)
        requires cell { own_cell pass.old ≡ cell_of self.now }
        requires other_cell { own_cell other ≡ cell_of self.now }
        ensures cell { own_cell pass.new ≡ own_cell pass.old }
        ensures known { knowledge_of pass.new
            ≡ joined_known (knowledge_of pass.old) (knowledge_of other) }
    {
        let CellPass { seat } = other;
        self.table.shared.join_seat::<Both>(&mut pass.seat, seat);
    }

    /// Makes the cell's code the least of itself and the code of this cost, in one step.
    pub fn put(&self, pass: &mut CellPass, edition: u32, cost: u64)
        requires cell { own_cell pass.old ≡ cell_of self.now }
        requires edition { edition ≤ NEWEST }
        ensures cell { own_cell pass.new ≡ own_cell pass.old }
        ensures known { knowledge_of pass.new
            ≡ with_put (knowledge_of pass.old) (packed edition cost) }
    {
        let code = code_of(edition, cost);
        self.table.shared.fetch_min::<Put>(&mut pass.seat, 0, code);
    }

    /// The newest edition and its least cost, `None` where that is saturated, as one load found
    /// them.
    pub fn least(&self, pass: &mut CellPass) -> (u32, Option<u64>)
        requires { own_cell pass.old ≡ cell_of self.now }
        ensures cell { own_cell pass.new ≡ own_cell pass.old }
        ensures found { (code : ℕ) × (result ≡ (edition_in code, code_cost code))
            × (knowledge_of pass.new ≡ with_found_code (knowledge_of pass.old) code)
            × Stands (knowledge_of pass.old) code }
    {
        let found = self.table.shared.load::<Find>(&mut pass.seat, 0);
        answer_of(found)
    }

    /// Ends the cell, and answers the least of all that was put. A pass that is whole knows all
    /// that was put.
    pub fn close(self, pass: CellPass) -> (u32, Option<u64>)
        requires { own_cell pass ≡ cell_of self }
        ensures { (code : ℕ) × (result ≡ (edition_in code, code_cost code))
            × Stands (knowledge_of pass) code }
    {
        let Least { table } = self;
        let CellPass { seat } = pass;
        let closed = table.close_with(seat);
        let last = closed.word(0);
        closed.free();
        answer_of(last)
    }
}
