use guarded::GuardedRing;
use records::Table;
use rings::Ring;

mod calls;
mod closing;
mod releasing;
mod statement;
mod verdict;

/// Eight registers of blinded polynomials over the 2,048 words that each call is lent. It owns its ring; register r has the words
/// 256 r to 256 r + 255. A workspace has to be closed.
pub struct Workspace<G: GuardedRing> {
    ring: G,
    table: Table,
}
