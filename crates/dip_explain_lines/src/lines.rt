//! The lines of decisions: why a move succeeds or fails, why a support is given or cut, and why a convoy has a route or none.
ghost use Rattle.std.specs.Prelude.{◌≡◌, ◌++◌, ◌&&◌, not, IfOk, OnOk, Some, codes, filter, flat_map, string_bytes};
ghost use Rattle.std.specs.List.{list_any};
ghost use Rattle.dip_decide_rules.specs.declared.decisions.Decision.TheVariants.{Move};
ghost use Rattle.dip_decide_rules.specs.Given.{situation_of};
ghost use Rattle.dip_decide_rules.specs.Movement.{goes, serves};
ghost use Rattle.dip_explain_strengths.specs.Matters.{here, joined, matter_of, order_in, others};
ghost use Rattle.dip_explain_lines.specs.Lines as m;
ghost use Rattle.dip_explain_lines.specs.Sayings.{saying_text};

use dip_decide_rules::Decision;
use dip_explain_strengths::{Case, push_order};
use dip_names::Prov;
use std::alloc::{AllocError, Global};

/// What is said of each unit of a list.
#[derive(Clone, Copy)]
pub enum Saying {
    /// What its move sets against others to this province.
    Prevents(Prov),
    /// By its move the support of this unit is cut.
    Cuts(Prov),
    /// By its move the support of this unit isn't cut.
    Spares(Prov),
    /// It carries an army, which has a route.
    Serves,
    /// It is to carry an army that has no route.
    Strands,
}

/// What a line says of a move before the fleets that carry it.
#[tactic(auto, unfolding(crate::specs::Lines::route_words))]
fn route_words() -> &'static str
    ensures { result.now ≡ m.route_words }
{
    " has a route: carried by "
}

/// What a line says of a unit that a move has dislodged.
#[tactic(auto, unfolding(crate::specs::Lines::dislodged_words))]
fn dislodged_words() -> &'static str
    ensures { result.now ≡ m.dislodged_words }
{
    " is dislodged"
}

/// What a line says of a move before the reason why nothing carries it.
#[tactic(auto, unfolding(crate::specs::Lines::no_route_words))]
fn no_route_words() -> &'static str
    ensures { result.now ≡ m.no_route_words }
{
    " has no route: "
}

/// Appends that a move comes from where a support goes, and what became of it.
#[tactic(auto, unfolding(crate::specs::Lines::coming_text))]
fn push_coming(case: &Case<'_>, x: Prov, became: &str, out: &mut String) -> Result<(), AllocError>
    ensures { OnOk result
        (string_bytes out.new ≡ string_bytes out.old ++ m.coming_text case.now.map.now x
        became.now) }
{
    out.push_str(" comes from ")?;
    case.push_code(x, out)?;
    out.push_str(", where the support goes, and ")?;
    out.push_str(became)
}

/// Appends how the move of `x` cuts the support of `h`.
#[tactic(auto, unfolding(crate::specs::Lines::cutting_text))]
fn push_cutting(case: &Case<'_>, h: Prov, x: Prov, out: &mut String) -> Result<(), AllocError>
    ensures { OnOk result
        (string_bytes out.new ≡ string_bytes out.old ++ m.cutting_text (matter_of case.now) h
        x) }
{
    if case.corner.table.aims(h, x) {
        return push_coming(case, x, "succeeds", out);
    }
    out.push_str(" attacks it")
}

/// Appends the move of `x`, by which the support of `h` is cut.
#[tactic(auto, unfolding(crate::specs::Lines::cut_text))]
fn push_cut(case: &Case<'_>, h: Prov, x: Prov, out: &mut String) -> Result<(), AllocError>
    ensures { OnOk result
        (string_bytes out.new ≡ string_bytes out.old ++ m.cut_text (matter_of case.now) h x) }
{
    push_order(case.map, case.orders, x, out)?;
    push_cutting(case, h, x, out)
}

/// Appends why the move of `x` doesn't cut the support of `h`.
#[tactic(auto, unfolding(crate::specs::Lines::sparing_text))]
fn push_sparing(case: &Case<'_>, h: Prov, x: Prov, out: &mut String) -> Result<(), AllocError>
    ensures { OnOk result
        (string_bytes out.new ≡ string_bytes out.old ++ m.sparing_text (matter_of case.now) h
        x) }
{
    if case.corner.table.same_power(x, h) {
        return out.push_str(" is of its own power");
    }
    if case.corner.table.aims(h, x) {
        return push_coming(case, x, "fails", out);
    }
    out.push_str(" has no route")
}

/// Appends the move of `x`, by which the support of `h` isn't cut.
#[tactic(auto, unfolding(crate::specs::Lines::spared_text))]
fn push_spared(case: &Case<'_>, h: Prov, x: Prov, out: &mut String) -> Result<(), AllocError>
    ensures { OnOk result
        (string_bytes out.new ≡ string_bytes out.old ++ m.spared_text (matter_of case.now) h
        x) }
{
    push_order(case.map, case.orders, x, out)?;
    push_sparing(case, h, x, out)
}

/// Whether the unit in the second province enters the first.
#[tactic(auto, unfolding(crate::specs::Lines::enters))]
fn enters(case: &Case<'_>, x: Prov, n: Prov) -> bool
    ensures { result ≡ m.enters (situation_of case.now.corner.table.now)
        (here (matter_of case.now)) x n }
{
    case.corner.table.goes(n, x) && case.corner.value(&Decision::Move(n))
}

/// Appends by whose move a fleet is dislodged.
#[tactic(auto, unfolding(crate::specs::Lines::enterer_text))]
fn push_enterer(case: &Case<'_>, n: Prov, out: &mut String) -> Result<(), AllocError>
    ensures { OnOk result
        (string_bytes out.new ≡ string_bytes out.old ++ m.enterer_text (matter_of case.now)
        n) }
{
    out.push_str(" by ")?;
    push_order(case.map, case.orders, n, out)
}

/// Appends the moves that enter a province.
fn push_enterers(case: &Case<'_>, x: Prov, out: &mut String) -> Result<(), AllocError>
    ensures { OnOk result
        (string_bytes out.new ≡ string_bytes out.old ++ flat_map
        (m.enterer_text (matter_of case.now))
        (m.enterers (situation_of case.now.corner.table.now) (here (matter_of case.now)) x)) }
{
    for n in &case.corner.table.places {
        if enters(case, x, *n) {
            push_enterer(case, *n, out)?;
        }
    }
    Ok(())
}

/// Appends that a fleet is dislodged, and by whom.
#[tactic(auto, unfolding(crate::specs::Lines::dislodged_text))]
fn push_dislodged(case: &Case<'_>, x: Prov, out: &mut String) -> Result<(), AllocError>
    ensures { OnOk result
        (string_bytes out.new ≡ string_bytes out.old ++ m.dislodged_text (matter_of case.now)
        x) }
{
    out.push_str(dislodged_words())?;
    push_enterers(case, x, out)
}

/// Appends what has become of a fleet that is to carry a move without a route.
#[tactic(auto, unfolding(crate::specs::Lines::fleet_text))]
fn push_fleet(case: &Case<'_>, x: Prov, out: &mut String) -> Result<(), AllocError>
    ensures { OnOk result
        (string_bytes out.new ≡ string_bytes out.old ++ m.fleet_text (matter_of case.now) x) }
{
    if case.corner.is_entered(x) {
        return push_dislodged(case, x, out);
    }
    out.push_str(" completes no chain")
}

/// Appends a fleet that is to carry a move without a route.
#[tactic(auto, unfolding(crate::specs::Lines::carrier_text))]
fn push_carrier(case: &Case<'_>, x: Prov, out: &mut String) -> Result<(), AllocError>
    ensures { OnOk result
        (string_bytes out.new ≡ string_bytes out.old ++ m.carrier_text (matter_of case.now)
        x) }
{
    case.push_unit(x, out)?;
    push_fleet(case, x, out)
}

/// Appends what a line says of one unit.
fn push_saying(
    case: &Case<'_>,
    saying: &Saying,
    p: Prov,
    out: &mut String,
) -> Result<(), AllocError>
    ensures { OnOk result
        (string_bytes out.new ≡ string_bytes out.old ++ saying_text (matter_of case.now)
        saying.now p) }
{
    match *saying {
        Saying::Prevents(q) => case.push_prevent(q, p, out),
        Saying::Cuts(h) => push_cut(case, h, p, out),
        Saying::Spares(h) => push_spared(case, h, p, out),
        Saying::Serves => case.push_unit(p, out),
        Saying::Strands => push_carrier(case, p, out),
    }
}

/// Appends what is said of each of these units, after a comma.
fn push_others(
    case: &Case<'_>,
    saying: &Saying,
    units: &[Prov],
    out: &mut String,
) -> Result<(), AllocError>
    ensures { OnOk result
        (string_bytes out.new ≡ string_bytes out.old ++ others (saying_text (matter_of
        case.now) saying.now) units.now) }
{
    for p in units {
        out.push_str(", ")?;
        push_saying(case, saying, *p, out)?;
    }
    Ok(())
}

/// Appends what is said of each of these units, with commas between.
fn push_joined(
    case: &Case<'_>,
    saying: &Saying,
    units: &[Prov],
    out: &mut String,
) -> Result<(), AllocError>
    ensures { OnOk result
        (string_bytes out.new ≡ string_bytes out.old ++ joined (saying_text (matter_of
        case.now) saying.now) units.now) }
{
    let Some((first, rest)) = units.split_first() else {
        return Ok(());
    };
    push_saying(case, saying, *first, out)?;
    push_others(case, saying, rest, out)
}

/// Whether the unit in `w` is another one than that in `p`, and moves to `q` too.
fn is_rival(case: &Case<'_>, p: Prov, q: Prov, w: Prov) -> bool
    ensures { result ≡ m.is_rival (situation_of case.now.corner.table.now) p q w }
{
    w != p && case.corner.table.goes(w, q)
}

/// The other moves to a province than that of a unit.
fn rivals(case: &Case<'_>, alloc: Global, p: Prov, q: Prov) -> Result<Vec<Prov>, AllocError>
    ensures { IfOk result
        (λ v. v.items ≡ m.rivals (situation_of case.now.corner.table.now) p q) }
{
    case.corner
        .table
        .places
        .iter()
        .copied()
        .filter(|w| is_rival(case, p, q, *w))
        .collect(alloc)
}

/// Whether the move of the third unit is another one to a province, and not beaten by that of the first.
#[tactic(auto, unfolding(crate::specs::Lines::is_unbeaten))]
fn is_unbeaten(case: &Case<'_>, p: Prov, q: Prov, w: Prov) -> bool
    ensures { result ≡ m.is_unbeaten (situation_of case.now.corner.table.now)
        (here (matter_of case.now)) p q w }
{
    is_rival(case, p, q, w) && case.corner.attack(p, q) <= case.corner.prevent(w, q)
}

/// The other moves to a province that the move of a unit doesn't beat.
fn unbeaten_moves(case: &Case<'_>, alloc: Global, p: Prov, q: Prov) -> Result<Vec<Prov>, AllocError>
    ensures { IfOk result
        (λ v. v.items ≡ m.unbeaten (situation_of case.now.corner.table.now)
        (here (matter_of case.now)) p q) }
{
    case.corner
        .table
        .places
        .iter()
        .copied()
        .filter(|w| is_unbeaten(case, p, q, *w))
        .collect(alloc)
}

/// Appends all that the attack exceeds.
#[tactic(auto, unfolding(crate::specs::Lines::exceeded_text))]
fn push_exceeded(
    case: &Case<'_>,
    alloc: Global,
    p: Prov,
    q: Prov,
    out: &mut String,
) -> Result<(), AllocError>
    ensures { OnOk result
        (string_bytes out.new ≡ string_bytes out.old ++ m.exceeded_text (matter_of case.now) p
        q) }
{
    let rivals = rivals(case, alloc, p, q)?;
    case.push_opposition(p, q, out)?;
    push_others(case, &Saying::Prevents(q), rivals.as_slice(), out)
}

/// Appends what the attack doesn't exceed: what the destination sets against it, else each other
/// move that prevents it.
#[tactic(auto, unfolding(crate::specs::Lines::unexceeded_text))]
fn push_unexceeded(
    case: &Case<'_>,
    alloc: Global,
    p: Prov,
    q: Prov,
    out: &mut String,
) -> Result<(), AllocError>
    ensures { OnOk result
        (string_bytes out.new ≡ string_bytes out.old ++ m.unexceeded_text (matter_of case.now)
        p q) }
{
    if case.corner.opposition(p, q) < case.corner.attack(p, q) {
        let unbeaten = unbeaten_moves(case, alloc, p, q)?;
        return push_joined(case, &Saying::Prevents(q), unbeaten.as_slice(), out);
    }
    case.push_opposition(p, q, out)
}

/// Appends what the attack of the move from `p` to `q` is measured against, after `against`: what it
/// exceeds or, where it fails, what it does not exceed. An attack of nothing appends nothing.
#[tactic(auto, unfolding(crate::specs::Lines::comparison_text))]
fn push_comparison(
    case: &Case<'_>,
    alloc: Global,
    p: Prov,
    q: Prov,
    out: &mut String,
) -> Result<(), AllocError>
    ensures { OnOk result
        (string_bytes out.new ≡ string_bytes out.old ++ m.comparison_text (matter_of case.now)
        p q) }
{
    if case.corner.attack(p, q) == 0 {
        return Ok(());
    }
    out.push_str(" against ")?;
    if case.corner.high {
        push_unexceeded(case, alloc, p, q, out)
    } else {
        push_exceeded(case, alloc, p, q, out)
    }
}

/// Appends why the move of a unit succeeds or fails.
#[tactic(auto, unfolding(crate::specs::Lines::move_text))]
fn push_move(case: &Case<'_>, alloc: Global, p: Prov, out: &mut String) -> Result<(), AllocError>
    ensures { OnOk result
        (string_bytes out.new ≡ string_bytes out.old ++ m.move_text (matter_of case.now) p
        ((situation_of case.now.corner.table.now).target p)) }
{
    push_order(case.map, case.orders, p, out)?;
    let Some(q) = case.corner.table.target(p) else {
        return out.push_str(" is no move");
    };
    out.push_str(if case.corner.high {
        " fails: "
    } else {
        " succeeds: "
    })?;
    case.push_attack(p, q, out)?;
    push_comparison(case, alloc, p, q, out)
}

/// Whether the move of the second unit cuts the support of the first.
#[tactic(auto, unfolding(crate::specs::Lines::is_cut_by))]
fn is_cut_by(case: &Case<'_>, h: Prov, x: Prov) -> bool
    ensures { result ≡ m.is_cut_by (situation_of case.now.corner.table.now)
        (here (matter_of case.now)) h x }
{
    case.corner.cuts(h, x)
}

/// The moves by which the support of a unit is cut.
fn cutters(case: &Case<'_>, alloc: Global, h: Prov) -> Result<Vec<Prov>, AllocError>
    ensures { IfOk result
        (λ v. v.items ≡ m.cutters (situation_of case.now.corner.table.now)
        (here (matter_of case.now)) h) }
{
    case.corner
        .table
        .places
        .iter()
        .copied()
        .filter(|x| is_cut_by(case, h, *x))
        .collect(alloc)
}

/// The units whose orders send them into the province, in the table's order.
fn movers(case: &Case<'_>, alloc: Global, h: Prov) -> Result<Vec<Prov>, AllocError>
    ensures { IfOk result
        (λ v. v.items ≡ m.movers (situation_of case.now.corner.table.now) h) }
{
    case.corner
        .table
        .places
        .iter()
        .copied()
        .filter(|x| case.corner.table.goes(*x, h))
        .collect(alloc)
}

/// Appends why the support of `h` is given.
#[tactic(auto, unfolding(crate::specs::Lines::given_text))]
fn push_given(case: &Case<'_>, alloc: Global, h: Prov, out: &mut String) -> Result<(), AllocError>
    ensures { OnOk result
        (string_bytes out.new ≡ string_bytes out.old ++ m.given_text (matter_of case.now) h) }
{
    let movers = movers(case, alloc, h)?;
    let Some((first, rest)) = movers.as_slice().split_first() else {
        out.push_str("no move goes to ")?;
        return case.push_code(h, out);
    };
    push_saying(case, &Saying::Spares(h), *first, out)?;
    push_others(case, &Saying::Spares(h), rest, out)
}

/// Appends why the support of a unit is given or cut.
#[tactic(auto, unfolding(crate::specs::Lines::support_text))]
fn push_support(case: &Case<'_>, alloc: Global, h: Prov, out: &mut String) -> Result<(), AllocError>
    ensures { OnOk result
        (string_bytes out.new ≡ string_bytes out.old ++ m.support_text (matter_of case.now) h) }
{
    push_order(case.map, case.orders, h, out)?;
    if case.corner.high {
        let cutters = cutters(case, alloc, h)?;
        out.push_str(" is cut: ")?;
        return push_joined(case, &Saying::Cuts(h), cutters.as_slice(), out);
    }
    out.push_str(" is given: ")?;
    push_given(case, alloc, h, out)
}

/// The fleets that carry the move of a unit.
fn servers(case: &Case<'_>, alloc: Global, p: Prov) -> Result<Vec<Prov>, AllocError>
    ensures { IfOk result
        (λ v. v.items ≡ m.servers (situation_of case.now.corner.table.now) (here (matter_of
        case.now)) p) }
{
    case.corner
        .table
        .places
        .iter()
        .copied()
        .filter(|x| case.corner.serves(p, *x))
        .collect(alloc)
}

/// The fleets whose convoys of a unit match.
fn carriers(case: &Case<'_>, alloc: Global, p: Prov) -> Result<Vec<Prov>, AllocError>
    ensures { IfOk result
        (λ v. v.items ≡ m.carriers (situation_of case.now.corner.table.now) p) }
{
    case.corner
        .table
        .places
        .iter()
        .copied()
        .filter(|x| case.corner.table.convoys(*x, p))
        .collect(alloc)
}

/// Appends why the move of `p` has no route.
#[tactic(auto, unfolding(crate::specs::Lines::stranded_text))]
fn push_stranded(
    case: &Case<'_>,
    alloc: Global,
    p: Prov,
    out: &mut String,
) -> Result<(), AllocError>
    ensures { OnOk result
        (string_bytes out.new ≡ string_bytes out.old ++ m.stranded_text (matter_of case.now)
        p) }
{
    let carriers = carriers(case, alloc, p)?;
    let Some((first, rest)) = carriers.as_slice().split_first() else {
        return out.push_str("no fleet carries it");
    };
    push_saying(case, &Saying::Strands, *first, out)?;
    push_others(case, &Saying::Strands, rest, out)
}

/// Appends that the move of `p` has no route, and why.
#[tactic(auto, unfolding(crate::specs::Lines::no_route_text))]
fn push_no_route(
    case: &Case<'_>,
    alloc: Global,
    p: Prov,
    out: &mut String,
) -> Result<(), AllocError>
    ensures { OnOk result
        (string_bytes out.new ≡ string_bytes out.old ++ m.no_route_text (matter_of case.now)
        p) }
{
    out.push_str(no_route_words())?;
    push_stranded(case, alloc, p, out)
}

/// Appends that the move of `p` has a route, and by which fleets.
#[tactic(auto, unfolding(crate::specs::Lines::route_text))]
fn push_route(case: &Case<'_>, alloc: Global, p: Prov, out: &mut String) -> Result<(), AllocError>
    ensures { OnOk result
        (string_bytes out.new ≡ string_bytes out.old ++ m.route_text (matter_of case.now) p) }
{
    let servers = servers(case, alloc, p)?;
    out.push_str(route_words())?;
    push_joined(case, &Saying::Serves, servers.as_slice(), out)
}

/// Appends why the move of a unit has a route by convoy, or none.
#[tactic(auto, unfolding(crate::specs::Lines::path_text))]
fn push_path(case: &Case<'_>, alloc: Global, p: Prov, out: &mut String) -> Result<(), AllocError>
    ensures { OnOk result
        (string_bytes out.new ≡ string_bytes out.old ++ m.path_text (matter_of case.now) p) }
{
    push_order(case.map, case.orders, p, out)?;
    if case.corner.high {
        push_no_route(case, alloc, p, out)
    } else {
        push_route(case, alloc, p, out)
    }
}

/// Appends why the decision came out as it did.
#[tactic(auto, unfolding(crate::specs::Lines::decision_text))]
pub fn push_decision(case: &Case<'_>, alloc: Global, out: &mut String) -> Result<(), AllocError>
    ensures { OnOk result
        (string_bytes out.new ≡ string_bytes out.old ++ m.decision_text (matter_of case.now)
        case.now.corner.of.now) }
{
    match *case.corner.of {
        Decision::Move(p) => push_move(case, alloc, p, out),
        Decision::Path(p) => push_path(case, alloc, p, out),
        Decision::Support(h) => push_support(case, alloc, h, out),
    }
}
