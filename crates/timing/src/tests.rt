// How hundredths are printed.
use super::*;
use std::process::Abort;
use std::test::Fail;

#[test]
fn printed(rt: HostRuntime) -> Result<(), Fail> {
    let heap = rt.alloc();
    let few = Hundredths(7);
    let many = Hundredths(12_340);
    assert_eq!(rt; format!(in heap; "{few}")?.as_str(), "0.07");
    assert_eq!(rt; format!(in heap; "{many}")?.as_str(), "123.40");
    Ok(())
}
