//! Numbers through the bound, as containers ask for them.
use crate::Abbreviate;
use std::test::Fail;

fn number<K: Abbreviate>(key: &K) -> u64 {
    key.abbreviated()
}

#[test]
fn numbers(rt: HostRuntime) -> Result<(), Fail> {
    assert_eq!(rt; number(&u64::MAX), u64::MAX);
    assert_eq!(rt; number(&7u32), 7);
    let text = String::from_str(rt.alloc(), "text")?;
    assert_eq!(rt; number(&text), 0x0074_6578_7400_0000);
    Ok(())
}
