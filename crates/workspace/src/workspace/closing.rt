ghost use Rattle.guarded.specs.Model.{model};
ghost use Rattle.registers.specs.Rows.{Wiped};

use super::Workspace;
use guarded::GuardedRing;
use records::Table;
use registers::wipe;
use rings::Ring;

impl<G: GuardedRing + Drop> Workspace<G> {
    /// Ends the workspace and its ring, and writes lift(0, 0, 0) into every word that it is lent. It refuses nothing.
    pub fn close(self, words: &mut [G::Word])
        ensures { Wiped (model G.GuardedRing self.ring) words.new }
    {
        wipe(&self.ring, words);
        let Workspace { ring, table } = self;
        drop(ring);
        drop(table);
    }
}
