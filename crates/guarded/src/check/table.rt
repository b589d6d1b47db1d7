ghost use Rattle.std.specs.Prelude.{◌*◌};
ghost use Rattle.roots.specs.Powers.{Powers};
ghost use Rattle.guarded.specs.Moduli.{joint_root};

use super::CheckModulus;

impl CheckModulus {
    // Looked up by p and not kept beside it: a ring that held a reference, and a workspace on it, could not be lent to a closure, whose proof the
    // borrow checker would not cover.
    /// The powers of the root modulo 3329 p.
    pub(crate) fn powers(&self) -> &'static [u32; 256]
        ensures { Powers (joint_root self.now.p.number) (3329 * self.now.p.number) result.now }
    {
        if self.p.number == 7681 {
            roots::joint_7681()
        } else {
            roots::joint_12289()
        }
    }
}
