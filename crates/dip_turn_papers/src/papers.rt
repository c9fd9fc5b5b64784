//! The paper of a phase.
ghost use Rattle.std.specs.Prelude.{◌≡◌, ◌++◌, ◌==◌, IfOk, OnOk, filter, flat_map, string_bytes};
ghost use Rattle.dip_turn_papers.specs.Papers.{account_text, adjusted_power, adjusted_text, adjusted_with, centre_line, paper_text, title, waiver_line};
ghost use Rattle.dip_desk_state.specs.Rows as rows;

use crate::lines::{PaperLine, push_lines_by_power, push_lines_of, push_power_lines};
use crate::telling::{adjusted_lines, disorder_lines, moved_lines, retreated_lines};
use dip_desk_state::Public;
use dip_map::{Map, Phase};
use dip_names::Power;
use dip_reports::{push_board_lines, push_game_line, push_phase};
use dip_turn_phases::{Account, Adjustment, CentreLine, Report, Waiver};
use std::alloc::{AllocError, Global};

/// Bytes at first for the paper of a phase: more than most take on the standard map.
const PAPER_ROOM: usize = 2048;

/// Appends how many builds a power waives, where it waives any.
fn push_waivers(
    map: &Map,
    waivers: &[Waiver],
    power: Power,
    out: &mut String,
) -> Result<(), AllocError>
    ensures { OnOk result
        (string_bytes out.new ≡ string_bytes out.old ++ flat_map (waiver_line map.now)
        (filter (λ w. w.power == power) waivers.now)) }
{
    for waiver in waivers {
        if waiver.power == power {
            let name = map.power_name(power);
            let builds = waiver.builds;
            write!(out, "{name} waives {builds}\n")?;
        }
    }
    Ok(())
}

/// Appends what a Winter brought a power.
fn push_adjusted_power(
    map: &Map,
    orders: &[PaperLine],
    disorder: &[PaperLine],
    waivers: &[Waiver],
    power: Power,
    out: &mut String,
) -> Result<(), AllocError>
    ensures { OnOk result
        (string_bytes out.new ≡ string_bytes out.old ++ adjusted_power map.now orders.now
        disorder.now waivers.now power) }
{
    push_power_lines(map, orders, power, out)?;
    push_lines_of(map, disorder, power, out)?;
    push_waivers(map, waivers, power, out)
}

/// Appends the lines of a Winter: orders, removals in disorder, waivers.
fn push_adjusted_with(
    map: &Map,
    orders: &[PaperLine],
    disorder: &[PaperLine],
    waivers: &[Waiver],
    out: &mut String,
) -> Result<(), AllocError>
    ensures { OnOk result
        (string_bytes out.new ≡ string_bytes out.old ++ adjusted_with map.now orders.now
        disorder.now waivers.now) }
{
    for power in map.each_power() {
        push_adjusted_power(map, orders, disorder, waivers, power, out)?;
    }
    Ok(())
}

/// Appends what a Winter brought, by power.
fn push_adjusted(
    alloc: Global,
    map: &Map,
    told: &Adjustment,
    out: &mut String,
) -> Result<(), AllocError>
    ensures { OnOk result
        (string_bytes out.new ≡ string_bytes out.old ++ adjusted_text map.now told.now) }
{
    let orders = adjusted_lines(alloc, told)?;
    let disorder = disorder_lines(alloc, told)?;
    push_adjusted_with(
        map,
        orders.as_slice(),
        disorder.as_slice(),
        told.waivers.as_slice(),
        out,
    )
}

/// Appends what became of the orders of a phase.
fn push_account(
    alloc: Global,
    map: &Map,
    account: &Account,
    out: &mut String,
) -> Result<(), AllocError>
    ensures { OnOk result
        (string_bytes out.new ≡ string_bytes out.old ++ account_text map.now account.now) }
{
    match account {
        Account::Movement(movement) => {
            let lines = moved_lines(alloc, movement.lines.as_slice())?;
            push_lines_by_power(map, lines.as_slice(), out)
        }
        Account::Retreats(retreats) => {
            let lines = retreated_lines(alloc, retreats.as_slice())?;
            push_lines_by_power(map, lines.as_slice(), out)
        }
        Account::Adjustment(told) => push_adjusted(alloc, map, told, out),
    }
}

/// Appends the centres that changed hands, each with its new owner.
fn push_centres(map: &Map, centres: &[CentreLine], out: &mut String) -> Result<(), AllocError>
    ensures { OnOk result
        (string_bytes out.new ≡ string_bytes out.old ++ flat_map (centre_line map.now)
        centres.now) }
{
    for centre in centres {
        let code = map.code(centre.prov);
        let owner = map.power_name(centre.power);
        write!(out, "centre {code}: {owner}\n")?;
    }
    Ok(())
}

/// Appends a paper's first line: its number, and the phase that was adjudicated.
fn push_title(number: u32, phase: Phase, out: &mut String) -> Result<(), AllocError>
    ensures { OnOk result
        (string_bytes out.new ≡ string_bytes out.old ++ title number phase) }
{
    write!(out, "PAPER {number} ")?;
    push_phase(phase, out)?;
    out.push_str("\n")
}

/// The paper of a phase that was adjudicated. Its number is the count of the game's papers, itself
/// among them. After its first line come the orders with what became of them, the centres that
/// changed hands, and the game line and the board lines of the public part.
///
/// # Errors
/// Want of memory alone.
#[tactic(auto, unfolding(crate::specs::Papers::paper_text))]
pub fn paper_text(
    alloc: Global,
    map: &Map,
    report: &Report,
    public: &Public,
) -> Result<String, AllocError>
    ensures { IfOk result
        (λ text. string_bytes text ≡ paper_text map.now report.now (rows.public public.now)) }
{
    let mut out = String::with_capacity(alloc, PAPER_ROOM)?;
    push_title(public.papers, report.phase, &mut out)?;
    push_account(alloc, map, &report.account, &mut out)?;
    push_centres(map, report.centres.as_slice(), &mut out)?;
    push_game_line(map, public, &mut out)?;
    push_board_lines(alloc, map, &public.board, &mut out)?;
    out.push_str("END\n")?;
    Ok(out)
}
