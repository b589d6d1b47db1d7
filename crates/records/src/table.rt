ghost use Rattle.std.specs.Prelude.{◌≡◌, length};
ghost use Rattle.arrayvec.specs.ArrayVec.{array_vec_len};
ghost use Rattle.records.specs.Rows.{rows, Kept};

use arrayvec::ArrayVec;
use histories::Register;

pub mod changes;

/// The records of the eight registers, and the list of masks that the last layer took.
#[derive(Drop)]
pub struct Table {
    records: [Register; 8],
    masks: ArrayVec<u8, 128>,
    ghost kept: { Kept (rows records) (array_vec_len masks) },
    // the length, for whoever reads no element
    ghost eight: { length records ≡ 8 },
}
