//! A movement, explained: a line for each step.
ghost use Rattle.std.specs.Prelude.{◌≡◌, ◌++◌, OnOk, codes, length, string_bytes, true, false, [], ◌∷◌};
ghost use Rattle.dip_map.specs.Boards.{IsOf};
ghost use Rattle.dip_orders_placed.specs.Standing.{units_of};
ghost use Rattle.dip_decide_rules.specs.Given.{known_of, situation_of};
ghost use Rattle.dip_decide_rules.specs.Results.{values_in};
ghost use Rattle.dip_decide_rules.specs.Steps.{moves_of, paths_of};
ghost use Rattle.dip_explain_strengths.specs.Matters.{joined, order_in};
ghost use Rattle.dip_explain.specs.Movement as m;

use dip_decide::{known_at_first, orders_as_meant};
use dip_decide_rules::{Corner, Decision, Known, Resolution, Step, Table, is_in};
use dip_decide_table::table_on;
use dip_explain_lines::push_decision;
use dip_explain_strengths::{Case, push_orders};
use dip_map::{Board, Map};
use dip_names::Prov;
use dip_orders::{Orders, PlacedOrder};
use std::alloc::{AllocError, Global};

/// What all lines rest on.
#[derive(Clone, Copy)]
struct Ground<'a> {
    map: &'a Map,
    orders: &'a [PlacedOrder],
    table: &'a Table<'a>,
    resolution: &'a Resolution,
}

/// The value that a resolution gives a decision: true where it lists the unit, and else false.
fn value_in(resolution: &Resolution, d: &Decision) -> bool
    ensures { result ≡ values_in resolution.now d.now }
{
    match d {
        Decision::Move(p) => is_in(resolution.moves.as_slice(), *p),
        Decision::Path(p) => is_in(resolution.paths.as_slice(), *p),
        Decision::Support(p) => is_in(resolution.supports.as_slice(), *p),
    }
}

/// Gives a decision its value, if it is open.
fn learn(known: &mut Known, d: &Decision, value: bool)
    ensures { known_of known.new
        ≡ m.given_to (known_of known.old) d.now value (known_of known.old d.now) }
{
    match known.look(d) {
        None => known.give(d, value),
        Some(_) => {}
    }
}

/// Notes that these moves succeed, where they are open.
fn learn_moves(known: &mut Known, units: &[Prov])
    ensures { known_of known.new ≡ m.learned (known_of known.old) (moves_of units.now) true }
{
    for p in units {
        learn(known, &Decision::Move(*p), true);
    }
}

/// Notes that these moves have no route, where that is open.
fn learn_no_paths(known: &mut Known, units: &[Prov])
    ensures { known_of known.new ≡ m.learned (known_of known.old) (paths_of units.now) false }
{
    for p in units {
        learn(known, &Decision::Path(*p), false);
    }
}

/// Why the moves of a knot have no route.
#[tactic(auto, unfolding(crate::specs::Movement::knot_text))]
fn knot_words(count: usize) -> &'static str
    ensures { result.now ≡ m.knot_text count }
{
    if count == 1 {
        " has no route: it hangs on its own convoy"
    } else {
        " have no route: they hang on one another"
    }
}

impl Ground<'_> {
    /// Appends the line of a decision that came out with this value.
    #[tactic(auto, unfolding(crate::specs::Movement::forced_line))]
    fn push_valued(
        &self,
        alloc: Global,
        known: &Known,
        d: &Decision,
        value: bool,
        out: &mut String,
    ) -> Result<(), AllocError>
        ensures { OnOk result
            (string_bytes out.new ≡ string_bytes out.old ++ m.forced_line self.now.map.now
            self.now.orders.now (situation_of self.now.table.now) (known_of known.now) d.now
            value) }
    {
        let case = Case {
            map: self.map,
            orders: self.orders,
            corner: Corner {
                table: self.table,
                known,
                of: d,
                high: !value,
            },
        };
        push_decision(&case, alloc, out)?;
        out.push_str("\n")
    }

    /// Appends the line of a decision that has one value, whatever is open.
    fn push_forced(
        &self,
        alloc: Global,
        known: &Known,
        d: &Decision,
        out: &mut String,
    ) -> Result<(), AllocError>
        ensures { OnOk result
            (string_bytes out.new ≡ string_bytes out.old ++ m.forced_line self.now.map.now
            self.now.orders.now (situation_of self.now.table.now) (known_of known.now) d.now
            (values_in self.now.resolution.now d.now)) }
    {
        self.push_valued(alloc, known, d, value_in(self.resolution, d), out)
    }

    /// Appends the line of a circle: the moves that go together.
    fn push_circle(&self, units: &[Prov], out: &mut String) -> Result<(), AllocError>
        ensures { OnOk result
            (string_bytes out.new ≡ string_bytes out.old ++ codes "circle: " ++ joined (order_in
            self.now.map.now self.now.orders.now) units.now ++ codes " move together\n") }
    {
        out.push_str("circle: ")?;
        push_orders(self.map, self.orders, units, out)?;
        out.push_str(" move together\n")
    }

    /// Appends the line of a knot: its moves, and why they have no route.
    fn push_knot(&self, units: &[Prov], out: &mut String) -> Result<(), AllocError>
        ensures { OnOk result
            (string_bytes out.new ≡ string_bytes out.old ++ codes "knot: " ++ joined (order_in
            self.now.map.now self.now.orders.now) units.now ++ m.knot_text (length units.now) ++
            codes "\n") }
    {
        out.push_str("knot: ")?;
        push_orders(self.map, self.orders, units, out)?;
        out.push_str(knot_words(units.len()))?;
        out.push_str("\n")
    }

    /// Appends the line of a step: a decision that was forced, a circle, or a knot.
    #[tactic(auto, unfolding(crate::specs::Movement::step_line))]
    fn push_step(
        &self,
        alloc: Global,
        known: &Known,
        step: &Step,
        out: &mut String,
    ) -> Result<(), AllocError>
        ensures { OnOk result
            (string_bytes out.new ≡ string_bytes out.old ++ m.step_line self.now.map.now
            self.now.orders.now (situation_of self.now.table.now) (values_in
            self.now.resolution.now) (known_of known.now) step.now) }
    {
        match step {
            Step::Forced(d) => self.push_forced(alloc, known, d, out),
            Step::Circle(units) => self.push_circle(units.as_slice(), out),
            Step::Knot(units) => self.push_knot(units.as_slice(), out),
        }
    }

    /// Notes the value that the resolution gives a decision, if it is open.
    fn learn_forced(&self, known: &mut Known, d: &Decision)
        ensures { known_of known.new
            ≡ m.given_to (known_of known.old) d.now (values_in self.now.resolution.now d.now)
            (known_of known.old d.now) }
    {
        let value = value_in(self.resolution, d);
        learn(known, d, value);
    }

    /// Notes what a step gives: the decision that it forces, the moves of its circle, or the lost
    /// routes of its knot.
    fn learn_step(&self, known: &mut Known, step: &Step)
        ensures { known_of known.new ≡ m.known_after (known_of known.old) step.now (values_in
            self.now.resolution.now) }
    {
        match step {
            Step::Forced(d) => self.learn_forced(known, d),
            Step::Circle(units) => learn_moves(known, units.as_slice()),
            Step::Knot(units) => learn_no_paths(known, units.as_slice()),
        }
    }

    /// Appends a line for each step, the first of which rests on these known values.
    fn push_steps(
        &self,
        alloc: Global,
        known: &mut Known,
        out: &mut String,
    ) -> Result<(), AllocError>
        ensures { OnOk result
            (string_bytes out.new ≡ string_bytes out.old ++ m.lines_from self.now.map.now
            self.now.orders.now (situation_of self.now.table.now) (values_in
            self.now.resolution.now) (known_of known.old) self.now.resolution.now.steps.items) }
    {
        for step in &self.resolution.steps {
            self.push_step(alloc, known, step, out)?;
            self.learn_step(known, step);
        }
        Ok(())
    }
}

/// Appends why a movement came out as it did: a line for each step of its resolution, in their order, each resting on what stands above it.
///
/// # Errors
/// Want of memory alone.
pub(crate) fn explain_movement(
    alloc: Global,
    map: &Map,
    board: &Board,
    orders: &Orders,
    resolution: &Resolution,
    out: &mut String,
) -> Result<(), AllocError>
    requires is_of { IsOf map.now board.now }
    requires orders { units_of orders.now ≡ board.now.units }
    ensures { OnOk result
        (string_bytes out.new ≡ string_bytes out.old ++ m.explanation map.now board.now orders.now
        resolution.now) }
{
    let _ = board.units();
    let meant = orders_as_meant(alloc, map, board, orders.as_slice())?;
    let table = table_on(alloc, map, board, orders.as_slice())?;
    let mut known = known_at_first(alloc, map, board, orders)?;
    let ground = Ground {
        map,
        orders: meant.as_slice(),
        table: &table,
        resolution,
    };
    ground.push_steps(alloc, &mut known, out)
}
