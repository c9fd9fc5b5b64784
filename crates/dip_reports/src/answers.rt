//! What a letter is answered: the lines of its reply.
ghost use Rattle.std.specs.Prelude.{◌≡◌, ◌++◌, IfOk, OnOk, string_bytes};
ghost use Rattle.dip_reports.specs.Texts.{fault_line, order_line, paper_line, press_line, refusal_line, replaced_line, withdrawn_line};

use crate::refusals::Refusal;
use dip_map::Map;
use dip_orders::{OrderFault, PlacedOrder, print_order};
use std::alloc::{AllocError, Global};

/// The line of a refusal. It has the refusal's code and what is wrong, and ends with LF.
pub fn refusal_line(alloc: Global, refusal: Refusal) -> Result<String, AllocError>
    ensures { IfOk result (λ line. string_bytes line ≡ refusal_line refusal) }
{
    format!(in alloc; "{refusal}\n")
}

/// The line of a letter that published a paper: `OK paper` and the paper's number.
pub fn paper_line(alloc: Global, number: u32) -> Result<String, AllocError>
    ensures { IfOk result (λ line. string_bytes line ≡ paper_line number) }
{
    format!(in alloc; "OK paper {number}\n")
}

/// The line `OK withdrawn`. It answers WITHDRAW, whether or not an order stood.
pub fn withdrawn_line(alloc: Global) -> Result<String, AllocError>
    ensures { IfOk result (λ line. string_bytes line ≡ withdrawn_line) }
{
    String::from_str(alloc, "OK withdrawn\n")
}

/// The line `OK press`. It answers press that was delivered.
pub fn press_line(alloc: Global) -> Result<String, AllocError>
    ensures { IfOk result (λ line. string_bytes line ≡ press_line) }
{
    String::from_str(alloc, "OK press\n")
}

/// The line of REPLACE: the power whose seat has another secret.
pub fn replaced_line(alloc: Global, power: &str) -> Result<String, AllocError>
    ensures { IfOk result (λ line. string_bytes line ≡ replaced_line power.now) }
{
    format!(in alloc; "OK seat {power}\n")
}

/// Appends the answer to a line of ORDERS that is refused: its fault, and its number in the letter, from 1 on.
pub fn push_fault(number: usize, fault: OrderFault, out: &mut String) -> Result<(), AllocError>
    ensures { OnOk result (string_bytes out.new ≡ string_bytes out.old ++ fault_line number fault) }
{
    let which = fault.number();
    let words = fault.words();
    write!(out, "O{which} line {number}: {words}\n")
}

/// Appends the answer to a line of ORDERS that is taken: `OK` and the canonical order.
pub fn push_order(map: &Map, placed: &PlacedOrder, out: &mut String) -> Result<(), AllocError>
    ensures { OnOk result
        (string_bytes out.new ≡ string_bytes out.old ++ order_line map.now placed.now) }
{
    out.push_str("OK ")?;
    print_order(map, placed, out)?;
    out.push_str("\n")
}
