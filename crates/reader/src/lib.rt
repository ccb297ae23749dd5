// The reader of statements: it holds the table it was lent and the number of the statement due; the work is `statements::read_statement`'s. `effects`
// and `checker` call `read_due`, whose parameters are plain.
#![tactic(auto)]

ghost use Rattle.std.specs.Prelude.{◌≡◌};
ghost use Rattle.statements.specs.Statements.{statement_at};

use statements::{Statement, read_statement};
use words::sections::Sections;

#[derive(Clone, Copy)]
pub struct Reader<'a> {
    table: &'a [i32],
    at: usize,
}

impl<'a> Reader<'a> {
    // The reader of a table at the statement of a number.
    pub fn new(table: &'a [i32], at: usize) -> Reader<'a>
        ensures { (result.table ≡ table.entry) × (result.at ≡ at) }
    {
        Reader { table, at }
    }

    // The statement due.
    pub fn due(self, sections: Sections) -> Option<Statement>
        ensures { result ≡ statement_at self.entry.table.now sections self.entry.at }
    {
        read_statement(self.table, sections, self.at)
    }
}

// The statement of a number, read by a reader that is made for it.
pub fn read_due(table: &[i32], sections: Sections, at: usize) -> Option<Statement>
    ensures { result ≡ statement_at table.now sections at }
{
    Reader::new(table, at).due(sections)
}
