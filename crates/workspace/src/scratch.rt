ghost use Rattle.std.specs.Prelude.{◌≡◌};
ghost use Rattle.workspace.specs.Scratch.{Zeros};

fn clean(numbers: &mut [u32])
    ensures { Zeros numbers.new }
{
    numbers.fill(0);
}

/// Lent numbers that are set to zero on every way out.
pub(crate) struct Scratch<'a>(pub(crate) &'a mut [u32]);

impl Drop for Scratch<'_> {
    fn drop(self)
        ensures { Zeros self.exit.0.now }
    {
        clean(self.0);
        let Scratch(_) = self;
    }
}
