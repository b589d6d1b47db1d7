ghost use Rattle.histories.specs.Theorem.{Theorem};

/// The theorem over every history of calls and strikes, for any two guarded rings.
pub fn histories_stand<V, W>() -> u8
    ensures { Theorem V W }
{
    0
}
