// What is left of each limit, and what rises through it, changes by one flow at a time.
ghost use Rattle.std.specs.Prelude.{◌+◌, ◌/◌, ◌%◌, ◌<◌, ◌≡◌};
ghost use Rattle.planner.specs.Tables.{Passed, Covers, Holds, Changed, Lowered};

use crate::flows::Flows;
use switch::port::{Input, Output};

// The limits of a cell's two ports, asked of the ports themselves: an input's number and an output's are two types.
fn input_limit(cell: usize) -> usize
    requires { cell < 64 }
    ensures { result ≡ cell / 8 }
{
    Input::of(cell as u64).limit() as usize
}

fn output_limit(cell: usize) -> usize
    ensures { result ≡ 8 + cell % 8 }
{
    Output::of(cell as u64).limit() as usize
}

impl Flows<'_> {
    // Changes the number of each limit that the flow of a cell passes: its input's, its output's and, with cards, those of their
    // cards.
    fn change<F: Fn(u64) -> u64>(&self, cell: usize, table: &mut [u64; 20], to: F)
        requires { (cell < 64) × Passed self.now.cards cell (F.pre to) table.old }
        ensures { Changed self.now.cards cell (F.post to) table.old table.new }
    {
        let input = input_limit(cell);
        let output = output_limit(cell);
        table[input] = to(table[input]);
        table[output] = to(table[output]);
        if self.cards {
            let input_card = 16 + cell / 32;
            let output_card = 18 + cell % 8 / 4;
            table[input_card] = to(table[input_card]);
            table[output_card] = to(table[output_card]);
        }
    }

    // Takes x off the limits that the flow of a cell passes.
    pub fn take(&self, cell: usize, x: u64, table: &mut [u64; 20])
        requires { (cell < 64) × Covers self.now.cards cell x table.old }
        ensures { Lowered self.now.cards cell x table.old table.new }
    {
        self.change(cell, table, |y| y - x);
    }

    // Puts x on them.
    pub fn give(&self, cell: usize, x: u64, table: &mut [u64; 20])
        requires { (cell < 64) × Holds self.now.cards cell x table.old }
        ensures { Lowered self.now.cards cell x table.new table.old }
    {
        self.change(cell, table, |y| y + x);
    }
}
