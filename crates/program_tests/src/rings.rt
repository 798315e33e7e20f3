// The texts of two small rings, written by hand.
use black_top::demo_text;
use std::process::Abort;
use std::test::Fail;

fn is<R: Abort>(rt: &R, text: &[u8], wanted: &[u8]) -> Result<(), Fail> {
    assert!(rt; *text == *wanted);
    Ok(())
}

#[test]
fn rings(rt: HostRuntime) -> Result<(), Fail> {
    is(
        &rt,
        &demo_text(rt.alloc(), 2)?,
        b"(((((p0 & G (p0 -> X p1)) & G (p1 -> X p0)) & G F p0) & G F p1) & G !(p0 & p1))",
    )?;
    is(
        &rt,
        &demo_text(rt.alloc(), 3)?,
        b"(((((((((p0 & G (p0 -> X p1)) & G (p1 -> X p2)) & G (p2 -> X p0)) & G F p0) & G F p1) \
        & G F p2) & G !(p0 & p1)) & G !(p0 & p2)) & G !(p1 & p2))",
    )
}
