ghost use Rattle.std.specs.Prelude.{◌≡◌, ◌==◌};
ghost use Rattle.guarded.specs.Model.{model};
ghost use Rattle.histories.specs.Theorem.{Stands};

use super::Workspace;
use guarded::GuardedRing;
use rings::Ring;

impl<G: GuardedRing> Workspace<G> {
    /// Whether the two workspaces have one check modulus: then, as long as nothing strikes them, they answer the same calls alike.
    ///
    /// Its contract is the theorem over every history of calls and strikes of these two.
    pub fn comparable<H: GuardedRing>(&self, other: &Workspace<H>) -> bool
        ensures answers { result ≡ (G.check self.now.ring == H.check other.now.ring) }
        ensures stands { Stands (model G.GuardedRing self.now.ring) (model H.GuardedRing other.now.ring) }
    {
        self.ring.check_modulus() == other.ring.check_modulus()
    }
}
