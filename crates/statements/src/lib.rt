// The statements of a table: seven words each, read with every test that cause 5 asks for.
#![tactic(auto)]

mod kinds; // kinds.rt: the fifteen kinds of statements, a reader each
pub mod decode; // decode.rt: the statements of a table that has been checked: decoded by their kind, with no test of a field

ghost use Rattle.std.specs.Prelude.{◌≡◌};
ghost use Rattle.statements.specs.Statements.{statement_at};

use conditions::Condition;
use kinds::read_kind;
use words::fields_at;
use words::sections::{Sections, in_limits};

// The fifteen kinds. "Ends" are those of known bounds that name what is set; "checks" are those of a run, by their numbers.
//
//    |                | fields             | sets   | facts                                        | known bounds                    | checks
// 1  | x := literal   | x, literal         | x      | x dropped, x = literal                       | ends unknown                    |
// 2  | x := y + k     | x, y, k            | x      | x = y + k (x := x + k shifts) where shown in | ends less k where shifted, else |
//    |                |                    |        | range, else x dropped                        | unknown                         |
// 3  | x := y op z    | x, y, z, op        | x      | x dropped                                    | ends unknown                    |
// 4  | p := null      | p                  | p      | p = 0                                        | ends unknown, but p's own       |
// 5  | p := object o  | p, o               | p      | p dropped, p >= 1                            | p's: the object                 |
// 6  | p := q + k     | p, q, k            | p      | p = q + k (p := p + k shifts); k not 0: p    | p's are q's; ends less k where  | 4, 5 where
//    |                |                    |        | >= 1                                         | p is q, else unknown            | k is not 0
// 7  | p := q + i     | p, q, i            | p      | p dropped, p >= 1                            | p's are q's; ends unknown       | 4, 5
// 8  | x := p[i + k]  | x, p, i, k         | x      | x dropped                                    | ends unknown                    | 2, 3
// 9  | p[i + k] := x  | p, i, k, x         | a cell |                                              |                                 | 2, 3, 6
// 10 | check          | condition          |        | the condition                                |                                 | 1
// 11 | if             | condition, counts  |        | in a block the condition or its negation;    |                                 |
//    |                |                    |        | then what both sides show                    |                                 |
// 12 | while          | condition, count   |        | what the body sets is dropped; in the body   |                                 |
//    |                |                    |        | the condition, behind it its negation        |                                 |
// 13 | bundle         | count              |        |                                              | asked for behind it             |
// 14 | p: bounds of r | p, r               | p's row |                                             | asked for by the row            |
// 15 | x := call      | callee, x, four    | x      | x dropped                                    | parameters' asked for; ends     | those of the
//    |                | arguments          |        |                                              | unknown                         | callee

// Kinds 1 to 10 and 14, in this order. Literals are plain numbers, constants are biased. A missing index is 16.
#[derive(Clone, Copy, Debug, PartialEq, Eq)]
pub enum Simple {
    Literal {
        target: usize,
        value: u64,
    },
    AddConstant {
        target: usize,
        source: usize,
        constant: u64,
    },
    Arithmetic {
        target: usize,
        left: usize,
        right: usize,
        operation: usize,
    },
    Null {
        target: usize,
    },
    Address {
        target: usize,
        object: usize,
    },
    PointerOffset {
        target: usize,
        source: usize,
        constant: u64,
    },
    PointerIndex {
        target: usize,
        source: usize,
        index: usize,
    },
    Load {
        target: usize,
        pointer: usize,
        index: usize,
        constant: u64,
    },
    Store {
        pointer: usize,
        index: usize,
        constant: u64,
        source: usize,
    },
    Check {
        condition: Condition,
    },
    Declare {
        pointer: usize,
        row: usize,
    },
}

// Kind 15, a call: the callee's number (one below 0 is taken plus 4,294,967,296, which no routine has), the result and the arguments. A missing one is 16.
#[derive(Clone, Copy, Debug, PartialEq, Eq)]
pub struct CallSite {
    pub callee: u64,
    pub result: usize,
    pub first: usize,
    pub second: usize,
    pub third: usize,
    pub fourth: usize,
}

// The fifteen kinds. A bundle holds kinds 1 to 10 and 14 only, so these have a type of their own.
#[derive(Clone, Copy, Debug, PartialEq, Eq)]
pub enum Statement {
    Plain(Simple),
    If {
        condition: Condition,
        then_count: usize,
        else_count: usize,
    },
    While {
        condition: Condition,
        count: usize,
    },
    Bundle {
        count: usize,
    },
    Call(CallSite),
}

// The statement of a number; one that the sections do not have is unread.
pub fn read_statement(table: &[i32], sections: Sections, at: usize) -> Option<Statement>
    ensures { result ≡ statement_at table.now sections at }
{
    if in_limits(sections) & (at < sections.statements) {
        let start = sections.start + sections.objects + 8 * sections.variables + 7 * at;
        return read_kind(table, sections, fields_at(table, start));
    }
    None
}
