//! Lines of refused texts.

use kan_refusals::{Refusal, error_line};
use std::test::Fail;

#[test]
fn prints_lines(rt: HostRuntime) -> Result<(), Fail> {
    let table = [
        (0, Refusal::NotUtf8, 1, "error 1 at 0: not UTF-8\n"),
        (2_049, Refusal::TooDeep, 6, "error 6 at 2049: too deep\n"),
        (
            4_294_967_295,
            Refusal::BadString,
            16,
            "error 16 at 4294967295: bad string\n",
        ),
    ];
    for (at, refusal, number, want) in table {
        let line = error_line(rt.alloc(), at, refusal)?;
        assert_eq!(rt; line.as_str(), want);
        assert_eq!(rt; refusal.number(), number);
    }
    Ok(())
}
