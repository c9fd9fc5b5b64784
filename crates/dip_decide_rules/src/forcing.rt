//! The test of a decision, and the count of all tests. Nothing else reads an equation, and nothing else raises the count.
ghost use Rattle.std.specs.Prelude.{◌≡◌, ◌+◌, ◌<◌, ◌^◌, Err, None, IfErr, IfOk};
ghost use Rattle.dip_decide_rules.specs.Given.{situation_of, known_of, IsAnswer};
ghost use Rattle.dip_decide_rules.specs.Movement.{rule, IsSituation};

use crate::corners::Corner;
use crate::decisions::Decision;
use crate::values::Values;
use dip_decide_table::{Room, Table};
use std::alloc::{AllocError, Global};
use std::marker::Model;

/// How many tests were made. Each test raises it by one, and nothing else changes it: it can't be copied, nor written to.
#[derive(Drop, Debug)]
pub struct Tests {
    count: u64,
}

impl Model for Tests {
    ghost use Rattle.std.specs.Prelude.{ℕ};

    ghost Value = { ℕ };

    ghost view = { λ t. t.count };
}

impl Tests {
    /// No test was made.
    pub fn new() -> Tests
        ensures { result ≡ 0 }
    {
        Tests { count: 0 }
    }

    /// How many tests were made.
    pub fn count(&self) -> u64
        ensures { result ≡ self.now }
    {
        self.count
    }

    /// Adds one to a count.
    fn raise(&mut self)
        requires { self.old + 1 < 2 ^ 64 }
        ensures { self.new ≡ self.old + 1 }
    {
        self.count += 1;
    }
}

/// The value to which an open decision is forced: true where it is so at the least, false where it is so at the most.
fn value_at_corners<'a>(
    room: &mut Room,
    table: &'a Table<'a>,
    known: &'a Values,
    of: &'a Decision,
) -> Result<Option<bool>, AllocError>
    requires unknown { known_of known.now of.now ≡ None }
    requires situation { IsSituation (situation_of table.now) }
    ensures { IfOk result (IsAnswer (rule (situation_of table.now)) (known_of known.now) of.now) }
{
    let least = Corner {
        table,
        known,
        of,
        high: false,
    }
    .rule(room, of)?;
    if least {
        return Ok(Some(true));
    }
    let greatest = Corner {
        table,
        known,
        of,
        high: true,
    }
    .rule(room, of)?;
    Ok(if greatest { None } else { Some(false) })
}

/// Tests an open decision: the value to which it is forced, or none where it isn't. The test is counted, also where memory is wanting.
pub fn forced_value<'a>(
    room: &mut Room,
    table: &'a Table<'a>,
    known: &'a Values,
    of: &'a Decision,
    tests: &mut Tests,
) -> Result<Option<bool>, AllocError>
    requires unknown { known_of known.now of.now ≡ None }
    requires situation { IsSituation (situation_of table.now) }
    requires countable { tests.old + 1 < 2 ^ 64 }
    ensures answer { IfOk result
        (IsAnswer (rule (situation_of table.now)) (known_of known.now) of.now) }
    ensures counted { tests.new ≡ tests.old + 1 }
{
    tests.raise();
    value_at_corners(room, table, known, of)
}

/// Tests an open decision as `forced_value` does, over a table and a room for searches; where there was no memory for these, the test is
/// counted all the same.
pub fn forced_on<'a>(
    ground: Result<(Table<'a>, Room), AllocError>,
    known: &Values,
    of: &Decision,
    tests: &mut Tests,
) -> Result<Option<bool>, AllocError>
    requires unknown { known_of known.now of.now ≡ None }
    requires situation { IfOk ground (λ g. IsSituation (situation_of g.0)) }
    requires countable { tests.old + 1 < 2 ^ 64 }
    ensures answer { IfOk ground.entry (λ g. IfOk result
        (IsAnswer (rule (situation_of g.0)) (known_of known.now) of.now)) }
    ensures wanting { IfErr ground.entry (λ e. result ≡ Err e) }
    ensures counted { tests.new ≡ tests.old + 1 }
{
    match ground {
        Ok((table, mut room)) => forced_value(&mut room, &table, known, of, tests),
        Err(error) => {
            tests.raise();
            Err(error)
        }
    }
}
