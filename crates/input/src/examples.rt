use crate::numbers;
use std::process::Abort;
use std::test::Fail;

#[test]
fn numbers_are_read_in_their_order(rt: HostRuntime) -> Result<(), Fail> {
    let all = numbers::<u16>(rt.alloc(), " 7\t0\n65535 007")?;
    assert_eq!(rt; all.as_slice(), [7, 0, 65535, 7].as_slice());
    let none = numbers::<u8>(rt.alloc(), " \n")?;
    assert!(rt; none.is_empty());
    assert!(rt; numbers::<u8>(rt.alloc(), "255 256").is_err());
    Ok(())
}
