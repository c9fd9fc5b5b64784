//! The public part of a game as JSON: its value, and the value's text.
ghost use Rattle.std.specs.Prelude.{◌≡◌, IfOk, map as each, string_bytes};
ghost use Rattle.std.specs.Str.Lines.{lines};
ghost use Rattle.serde_json.specs.Data.{array, string};
ghost use Rattle.serde_json.specs.View.{items_of, view};
ghost use Rattle.dip_reports.specs.Texts.{board_lines, phase_text};
ghost use Rattle.dip_desk_state.specs.Texts.{status_text};
ghost use Rattle.dip_desk_state.specs.Rows as rows;
ghost use Rattle.dip_http_messages.specs.Texts.{state_text};
ghost use Rattle.dip_http_messages.specs.Values.{state_data};

use dip_desk_state::{Public, Status, push_status};
use dip_map::{Board, Map, Phase};
use dip_reports::{push_board_lines, push_phase};
use serde_json::{Map as Members, Value, put};
use std::alloc::{AllocError, Global};

/// The lines of a text, each a string.
fn strings_of(alloc: Global, text: &str) -> Result<Vec<Value>, AllocError>
    ensures { IfOk result
        (λ v. items_of (each view v.items) ≡ items_of (each string (lines text.now))) }
{
    let mut values = Vec::new(alloc);
    'lines: for line in text.lines() {
        values.push(Value::String(String::from_str(alloc, line)?))?;
    }
    Ok(values)
}

/// The board lines, without the LF at the end of each.
fn board_value(alloc: Global, map: &Map, board: &Board) -> Result<Value, AllocError>
    ensures { IfOk result
        (λ v. view v ≡ array (items_of (each string (lines (board_lines map.now board.now))))) }
{
    let mut text = String::new(alloc);
    push_board_lines(alloc, map, board, &mut text)?;
    Ok(Value::Array(strings_of(alloc, text.as_str())?))
}

fn phase_value(alloc: Global, phase: Phase) -> Result<Value, AllocError>
    ensures { IfOk result (λ v. view v ≡ string (phase_text phase)) }
{
    let mut text = String::new(alloc);
    push_phase(phase, &mut text)?;
    Ok(Value::String(text))
}

fn status_value(alloc: Global, map: &Map, status: &Status) -> Result<Value, AllocError>
    ensures { IfOk result (λ v. view v ≡ string (status_text map.now (rows.status status.now))) }
{
    let mut text = String::new(alloc);
    push_status(map, status, &mut text)?;
    Ok(Value::String(text))
}

fn name_value(name: &String) -> Result<Value, AllocError>
    ensures { IfOk result (λ v. view v ≡ string (string_bytes name.now)) }
{
    Ok(Value::String(name.clone()?))
}

/// The public part as a JSON object.
fn state_value(alloc: Global, map: &Map, public: &Public) -> Result<Value, AllocError>
    ensures { IfOk result (λ v. view v ≡ state_data map.now (rows.public public.now)) }
{
    let mut members = Members::new(alloc);
    put(
        &mut members,
        alloc,
        "board",
        board_value(alloc, map, &public.board)?,
    )?;
    put(&mut members, alloc, "due", Value::from(public.due))?;
    put(&mut members, alloc, "game", name_value(&public.game)?)?;
    put(&mut members, alloc, "grey", Value::Bool(public.grey))?;
    put(
        &mut members,
        alloc,
        "intent",
        Value::Bool(public.board.intent()),
    )?;
    put(&mut members, alloc, "papers", Value::from(public.papers))?;
    put(&mut members, alloc, "period", Value::from(public.period))?;
    put(
        &mut members,
        alloc,
        "phase",
        phase_value(alloc, public.board.phase())?,
    )?;
    put(
        &mut members,
        alloc,
        "status",
        status_value(alloc, map, &public.status)?,
    )?;
    Ok(Value::Object(members))
}

/// The public part of a game as JSON: an object with its keys in the order of their letters, no space and no LF.
pub fn state_text(alloc: Global, map: &Map, public: &Public) -> Result<String, AllocError>
    ensures { IfOk result
        (λ s. string_bytes s ≡ state_text map.now (rows.public public.now)) }
{
    state_value(alloc, map, public)?.to_string(alloc)
}
