//! A new game, as it comes to lie in memory.
ghost use Rattle.std.specs.Prelude.{◌≡◌, [], ◌∷◌, ◌++◌, ℕ, List, None, IfOk, IsErrOf, OnErr, OnOk, bytes_eq, map as each, string_bytes, true};
ghost use Rattle.dip_desk_state.specs.Faults.{faults_after};
ghost use Rattle.dip_desk_state.specs.Keyed.{at, change_at};
ghost use Rattle.dip_desk_state.specs.State as s;
ghost use Rattle.dip_desk_state.specs.ChangeRows as desk_rows;
ghost use Rattle.dip_desk_state.specs.Rows as rows;
ghost use Rattle.dip_desk_memory.specs.Stored as stored;

use crate::games::{GameRow, Games, SeatRow};
use dip_desk_state::{KeepFault, NewSeat, Own, Public, Vote};
use std::alloc::{AllocError, Global};
use std::rc::Rc;

/// A seat that has sent nothing and got nothing.
fn row_of(alloc: Global, seat: &NewSeat) -> SeatRow
    ensures { stored.part result ≡ s.fresh (desk_rows.new_seat seat.now) }
{
    SeatRow {
        own: Own {
            power: seat.power,
            digest: seat.digest,
            vote: Vote::No,
            pending: Vec::new(alloc),
            kept: None,
            sent: 0,
            items: 0,
        },
        inbox: Vec::new(alloc),
    }
}

fn rows_of(alloc: Global, seats: &[NewSeat]) -> Result<Vec<SeatRow>, AllocError>
    ensures { IfOk result
        (λ v. stored.parts v.items ≡ each s.fresh
        (each (λ n. desk_rows.new_seat n) seats.now)) }
{
    let mut new_rows = Vec::with_capacity(alloc, seats.len())?;
    for seat in seats {
        new_rows.push(row_of(alloc, seat))?;
    }
    Ok(new_rows)
}

/// The game as CREATE leaves it: its first paper, and seats that have sent nothing and got nothing.
fn game_of(
    alloc: Global,
    public: &Public,
    paper: &String,
    seats: &[NewSeat],
) -> Result<GameRow, AllocError>
    ensures game { IfOk result
        (λ g. (name : List ℕ) → name ≡ (rows.public public.now).game → stored.game name g
        ≡ s.opening_game (rows.public public.now) (string_bytes paper.now)
        (each (λ n. desk_rows.new_seat n) seats.now)) }
    ensures name { IfOk result (λ g. stored.name_in g ≡ string_bytes public.now.game) }
{
    let mut papers = Vec::new(alloc);
    papers.push(paper.clone()?)?;
    Ok(GameRow {
        public: Rc::new(alloc, public.copy_under(alloc, public.game.as_str())?)?,
        papers,
        seats: rows_of(alloc, seats)?,
    })
}

/// A new game stands last. A name that is taken is none to open a game of.
pub fn add_game(
    alloc: Global,
    games: &mut Games,
    public: &Public,
    paper: &String,
    seats: &[NewSeat],
) -> Result<(), KeepFault>
    ensures ok { OnOk result (stored.games games.new.entries ≡ stored.games games.old.entries
        ++ s.opening_game (rows.public public.now) (string_bytes paper.now)
        (each (λ n. desk_rows.new_seat n) seats.now) ∷ []) }
    ensures free { OnOk result
        ((at bytes_eq s.name_of (string_bytes public.now.game) (stored.games games.old.entries)
        ≡ None) × ((f : s.Game → s.Game) → stored.games games.old.entries
        ≡ change_at bytes_eq s.name_of (string_bytes public.now.game) f
        (stored.games games.old.entries))) }
    ensures err { OnErr result
        (stored.games games.new.entries ≡ stored.games games.old.entries) }
    ensures named { stored.are_named games.old.entries ≡ true
        → stored.are_named games.new.entries ≡ true }
    ensures taken { IsErrOf result KeepFault.Damaged
        → at bytes_eq s.name_of (string_bytes public.now.game) (stored.games games.old.entries)
        ≡ None → ⊥ }
    ensures disk { faults_after result 0 ≡ 0 }
{
    if games.contains_key(public.game.as_str()) {
        return Err(KeepFault::Damaged);
    }
    let game = game_of(alloc, public, paper, seats)?;
    games.insert(public.game.clone()?, game)?;
    Ok(())
}
