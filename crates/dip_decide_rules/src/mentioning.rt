//! Whom the equation of a decision mentions.
ghost use Rattle.std.specs.Prelude.{◌≡◌, ◌&&◌, Some};
ghost use Rattle.std.specs.List.{list_any};
ghost use Rattle.dip_decide_rules.specs.declared.decisions.Decision.TheVariants.{Move, Path};
ghost use Rattle.dip_decide_rules.specs.Given.{situation_of};
ghost use Rattle.dip_decide_rules.specs.Movement.{IsSituation, mentions, move_mentions, goes};

use crate::decisions::Decision;
use dip_decide_table::Table;
use dip_names::Prov;

/// Whether a unit supports one that goes to a province.
fn supports_into(table: &Table, h: Prov, q: Prov) -> bool
    requires situation { IsSituation (situation_of table.now) }
    ensures { result ≡ list_any
        (λ w. (situation_of table.now).supports h w && goes (situation_of table.now) w q)
        table.now.places.items }
{
    match table.backed(h) {
        Some(w) => table.goes(w, q),
        None => false,
    }
}

/// Whether the equation of the move of a unit to a province mentions a decision.
fn move_mentions(table: &Table, p: Prov, q: Prov, e: &Decision) -> bool
    requires situation { IsSituation (situation_of table.now) }
    ensures { result ≡ move_mentions (situation_of table.now) p (Some q) e.now }
{
    match e {
        Decision::Move(r) => *r == q,
        Decision::Path(w) => table.goes(*w, q) && table.is_convoyed(*w),
        Decision::Support(h) => {
            supports_into(table, *h, q)
                || (table.supports(*h, q) && (!table.has_move(q) || table.head_to_head(p, q)))
        }
    }
}

/// Whether a move goes to a fleet that convoys the unit in a province.
fn enters_carrier(table: &Table, p: Prov, m: Prov) -> bool
    ensures { result ≡ mentions (situation_of table.now) (Path p) (Move m) }
{
    match table.target(m) {
        Some(x) => table.convoys(x, p),
        None => false,
    }
}

/// Whether the equation of a decision mentions another.
pub fn mentions(table: &Table, d: &Decision, e: &Decision) -> bool
    requires situation { IsSituation (situation_of table.now) }
    ensures { result ≡ mentions (situation_of table.now) d.now e.now }
{
    match (d, e) {
        (Decision::Move(p), _) => match table.target(*p) {
            Some(q) => move_mentions(table, *p, q, e),
            None => false,
        },
        (Decision::Support(h), Decision::Path(x)) => table.goes(*x, *h)
            && !table.same_power(*x, *h)
            && table.is_convoyed(*x)
            && !table.aims(*h, *x),
        (Decision::Support(h), Decision::Move(x)) => {
            table.goes(*x, *h) && !table.same_power(*x, *h) && table.aims(*h, *x)
        }
        (Decision::Path(p), Decision::Move(m)) => enters_carrier(table, *p, *m),
        _ => false,
    }
}
