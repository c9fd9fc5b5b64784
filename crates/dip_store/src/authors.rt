//! What is known of a letter's author before the letter is kept.
ghost use Rattle.std.specs.Prelude.{◌≡◌, map as each};
ghost use Rattle.dip_desk_state.specs.ChangeRows as desk_rows;
ghost use Rattle.dip_desk_state.specs.Rows as rows;
ghost use Rattle.dip_store.specs.Authors.{known_among};

use dip_desk_state::{Author, Own};
use dip_store_counts::KnownAuthor;
use dip_store_memory::own_in;

/// What the own parts of a game say of a letter's author, where its own is among them.
pub(crate) fn known_author(author: Author, owns: &[Own]) -> Option<KnownAuthor>
    ensures { result ≡ known_among (desk_rows.author author) (each (λ o. rows.own o) owns.now) }
{
    match author {
        Author::Nobody | Author::TheMaster => None,
        Author::Seat(power) => {
            let own = own_in(owns, power)?;
            Some(KnownAuthor::of(own))
        }
    }
}
