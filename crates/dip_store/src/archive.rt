//! All papers of a game of a store, in their order.
ghost use Rattle.dip_desk_keeper.specs.Papers.{AreOut, WritesPapers};
ghost use Rattle.dip_store.specs.Stored.{book};

use crate::keeper::SqlKeeper;
use dip_desk_keeper::{PaperFault, write_papers};
use dip_map::Map;
use sqlite::Alter;
use std::io::Write;

impl<S: Alter> SqlKeeper<S> {
    /// Writes all papers of a game, as the function of that name does over any keeper.
    ///
    /// # Errors
    /// Those of that function.
    pub fn write_papers<W: Write>(
        &mut self,
        map: &Map,
        game: &str,
        writer: &mut W,
    ) -> Result<Option<u64>, PaperFault>
        ensures { WritesPapers map.now (book S.Store) game.now self.old self.new
            (λ o g. AreOut o g (W.contents writer.old) (W.contents writer.new))
            (W.contents writer.old) (W.contents writer.new) result }
    {
        write_papers(writer, self, map, game)
    }
}
