//! Outlines without their auxiliary variables, as they are printed with their assertions.

use og_erase::{Program, erase};
use og_print::print_outline;
use og_test_samples::outline_of;
use og_typed::Outline;
use std::alloc::Global;
use std::test::Fail;

fn printed(alloc: Global, program: &Program) -> Result<Vec<u8>, Fail> {
    let raw = program.raw(alloc)?;
    let text = print_outline(alloc, &raw);
    drop(raw);
    Ok(text?)
}

fn text_of(alloc: Global, outline: &Outline) -> Result<Vec<u8>, Fail> {
    let program = erase(alloc, outline)?;
    let result = printed(alloc, &program);
    drop(program);
    result
}

// The text printed of a program as an outline stands for that program again.
const SOURCE: &str =
    "var x, y; aux a = 0; {x = 2*y - 7} cobegin {a = 0} if 0 <= x and -y < 9223372036854775807 then begin {true} x := -2147483648*y + x - 9223372036854775807 {true} a := 1 {true} end {true} // {true} await x <> 1 then begin a := 2; y := 3*x end {true} coend {x <= y}";

const PRINTED: &str =
    "var x, y;\n{x - 2*y + 7 = 0}\ncobegin\n  {true}\n  if -x <= 0 and -y - 9223372036854775806 <= 0 then begin\n    {true}\n    x := x - 2147483648*y - 9223372036854775807\n    {true}\n  end\n  {true}\n//\n  {true}\n  await x - 1 <> 0 then y := 3*x\n  {true}\ncoend\n{x - y <= 0}\n";

#[test]
fn program_again(rt: HostRuntime) -> Result<(), Fail> {
    for source in [SOURCE, PRINTED] {
        let outline = outline_of(rt.alloc(), source)?;
        let result = text_of(rt.alloc(), &outline);
        drop(outline);
        assert_eq!(rt; result?.as_slice(), PRINTED.as_bytes());
    }
    Ok(())
}
