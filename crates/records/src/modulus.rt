ghost use Rattle.std.specs.Prelude.{◌≡◌, ◌+◌, ◌-◌, ◌*◌, ◌%◌, ◌<◌};

/// The check modulus, by which the numbers of witnesses are reduced.
// The crate witness has one of its own, which belongs to a ring and spares the divisions in its loops; a join makes two of them at most.
#[derive(Clone, Copy)]
pub(crate) struct Modulus {
    pub(crate) p: u32,
    ghost some: { 0 < p },
}

impl Modulus {
    pub(crate) fn sum(self, x: u32, y: u32) -> u32
        ensures { result ≡ (x + y) % self.p }
    {
        ((x as u64 + y as u64) % self.p as u64) as u32
    }

    pub(crate) fn difference(self, x: u32, y: u32) -> u32
        ensures { result ≡ (x + (self.p - y)) % self.p }
    {
        ((x as u64 + self.p.saturating_sub(y) as u64) % self.p as u64) as u32
    }

    pub(crate) fn product(self, x: u32, y: u32) -> u32
        ensures { result ≡ (x * y) % self.p }
    {
        ((x as u64 * y as u64) % self.p as u64) as u32
    }
}
