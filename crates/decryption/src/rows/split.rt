ghost use Rattle.std.specs.Prelude.{◌≡◌, ◌+◌, ◌*◌, ◌++◌, length};

use super::Rows;
use crate::Rank;

impl<'a> Rows<'a> {
    /// The numbers of both rows and of v, in this order.
    pub fn split(rank: Rank, numbers: &'a [u16]) -> Rows<'a>
        requires { length numbers.now ≡ 512 * rank.number + 256 }
        ensures rank { result.rank ≡ rank }
        ensures whole { result.u.now ++ (result.s.now ++ result.v.now) ≡ numbers.now }
    {
        let row = 256 * rank.number as usize;
        let (u, rest) = numbers.split_at(row);
        let (s, v) = rest.split_at(row);
        Rows { rank, u, s, v }
    }
}
