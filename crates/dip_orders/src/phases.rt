//! Which orders belong to which phases.
ghost use Rattle.std.specs.Prelude.{◌≡◌};
ghost use Rattle.dip_orders.specs.Conditions.{is_movement, is_retreat, is_adjustment, is_in_phase};

use dip_map::Season;
use dip_orders_lines::Form;

/// Whether units move in this season.
fn is_movement(season: Season) -> bool
    ensures { result ≡ is_movement season }
{
    match season {
        Season::SpringMoves | Season::FallMoves => true,
        Season::SpringRetreats | Season::FallRetreats | Season::Winter => false,
    }
}

/// Whether dislodged units retreat in this season.
fn is_retreat(season: Season) -> bool
    ensures { result ≡ is_retreat season }
{
    match season {
        Season::SpringRetreats | Season::FallRetreats => true,
        Season::SpringMoves | Season::FallMoves | Season::Winter => false,
    }
}

/// Whether units are built and removed in this season.
fn is_adjustment(season: Season) -> bool
    ensures { result ≡ is_adjustment season }
{
    match season {
        Season::Winter => true,
        Season::SpringMoves | Season::FallMoves => false,
        Season::SpringRetreats | Season::FallRetreats => false,
    }
}

/// Whether a form belongs to a phase of this season.
pub(crate) fn is_in_phase(form: &Form, season: Season) -> bool
    ensures { result ≡ is_in_phase form.now season }
{
    match form {
        Form::Hold { .. } | Form::Move { .. } => is_movement(season),
        Form::SupportHold { .. } | Form::SupportMove { .. } => is_movement(season),
        Form::Convoy { .. } => is_movement(season),
        Form::Retreat { .. } | Form::Disband { .. } => is_retreat(season),
        Form::Build { .. } | Form::Remove { .. } => is_adjustment(season),
    }
}
