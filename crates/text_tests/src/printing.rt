//! Data, read and printed.

use kan_terms::Names;
use sexpr::{print, read};
use std::alloc::Global;
use std::process::Abort;
use std::test::Fail;

// Reads a text and demands the texts of its data, each on a line.
fn expect_data(rt: &(impl Abort + Alloc<A = Global>), text: &str, lines: &str) -> Result<(), Fail> {
    assert!(rt; text.len() <= 1_048_576);
    let alloc = rt.alloc();
    let mut names = Names::new(alloc);
    let Ok(data) = read(alloc, text.as_bytes(), &mut names) else {
        return Err(Fail::from("a fault"));
    };
    let mut all = Vec::new(alloc);
    for datum in data.as_slice() {
        let line = print(alloc, datum, &names)?;
        all.extend_from_slice(&line)?;
        all.push(b'\n')?;
    }
    assert_eq!(rt; all.as_slice(), lines.as_bytes());
    Ok(())
}

#[test]
fn reads_and_prints(rt: HostRuntime) -> Result<(), Fail> {
    let table = [
        ("'(a . b)", "(quote (a . b))\n"),
        ("(a . (b)) (a . 'b)", "(a b)\n(a quote b)\n"),
        ("`(,x -12 ())", "(quasiquote ((unquote x) -12 ()))\n"),
        ("[#t (+05 . -0)]#f", "(#t (5 . 0))\n#f\n"),
        ("λ (名 🙂)", "λ\n(名 🙂)\n"),
        (
            "(a b . c) ((a . b) . (c . d))",
            "(a b . c)\n((a . b) c . d)\n",
        ),
    ];
    for (text, lines) in table {
        expect_data(&rt, text, lines)?;
    }
    Ok(())
}
