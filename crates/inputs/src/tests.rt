use crate::input_of;

// (The programs show that each input that their arguments name is taken in turn.)
#[test]
fn no_more_than_the_limit_is_read(rt: HostRuntime) -> anyhow::Result<()> {
    let input = input_of(&rt, "/dev/zero", 4)?;
    assert!(rt; input.as_slice() == [0u8, 0, 0, 0].as_slice());
    assert!(rt; input_of(&rt, "/dev/null", 4)?.is_empty());
    Ok(())
}
