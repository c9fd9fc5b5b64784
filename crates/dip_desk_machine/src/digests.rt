//! The digest of a secret.
ghost use Rattle.std.specs.Prelude.{◌≡◌};
ghost use Rattle.dip_desk_machine.specs.MasterCommands.{digest};

use dip_letters::digest;

/// SHA-256 of a game, a sender and a secret, by which a letter's author is known.
#[tactic(auto, unfolding(crate::specs::MasterCommands::digest))]
pub fn digest_of(game: &str, sender: &str, secret: &str) -> [u8; 32]
    ensures { result ≡ digest game.now sender.now secret.now }
{
    digest(game, sender, secret)
}
