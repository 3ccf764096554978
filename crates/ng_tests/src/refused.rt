//! Where and why a text is no program, and what is left of a text that begins with two colons.
use crate::rows::column;
use ng_lex::lex;
use ng_parse::{ParseFault, ParseKind, one_time, parse};
use std::alloc::{AllocError, Global};
use std::test::Fail;

/// Where and why a text is refused; none where it is read.
fn refusal(alloc: Global, text: &str) -> Result<Option<ParseFault>, Fail> {
    let tokens = lex(alloc, text)?;
    match parse(alloc, &tokens) {
        Ok(_) => Ok(None),
        Err(fault) => Ok(Some(fault)),
    }
}

/// A text that is no program, and the place of its refusal and why.
const REFUSED: &str = ")→0 Unexpected
a b→2 Unexpected
a. 1→3 Unexpected
[,]→1 Unexpected
[a,,]→3 Unexpected
f(a,)→4 Unexpected
{a.b}→2 Unexpected
{'a'}→4 Unexpected
{a:1 b}→5 Unexpected
{a:b|f}→4 Unexpected
$locals→0 Unexpected
a + $locals.b→4 Unexpected
a = = b→4 Unexpected
a|1→2 Unexpected
a : b→2 Unexpected
::a→0 Unexpected
a+→2 Ended
(a →3 Ended
a|→2 Ended
a?b→3 Ended
{a:→3 Ended
a;[→3 Ended
(a) = 1→4 NotAssignable
a+b=c→3 NotAssignable
1 = a→2 NotAssignable
f() = 1→4 NotAssignable
this = 1→5 NotAssignable
a; -b = )→6 NotAssignable";

/// Where and why a text is refused, in one text.
fn told(alloc: Global, text: &str) -> Result<String, Fail> {
    match refusal(alloc, text)? {
        None => Ok(String::from_str(alloc, "read")?),
        Some(fault) => Ok(format!(in alloc; "{} {:?}", fault.place, fault.kind)?),
    }
}

#[test]
fn a_refusal_has_its_place(rt: HostRuntime) -> Result<(), Fail> {
    for row in REFUSED.split('\n') {
        let (text, want) = column(row);
        let got = told(rt.alloc(), text)?;
        assert_eq!(rt; got.as_str(), want, "at {text}");
    }
    Ok(())
}

/// A text so many times, then another, then a third so many times.
fn nest(
    alloc: Global,
    before: &str,
    count: u32,
    middle: &str,
    behind: &str,
) -> Result<String, AllocError> {
    let mut out = String::new(alloc);
    for _ in 0..count {
        out.push_str(before)?;
    }
    out.push_str(middle)?;
    for _ in 0..count {
        out.push_str(behind)?;
    }
    Ok(out)
}

#[test]
fn the_limits_are_sharp(rt: HostRuntime) -> Result<(), Fail> {
    let rows = [
        ("a;", 500, "", "", None),
        ("a;", 500, "b", "", Some(1000)),
        ("[", 100, "", "]", None),
        ("[", 101, "", "]", Some(100)),
        ("(", 99, "a", ")", None),
        ("(", 100, "a", ")", Some(0)),
        ("-", 99, "a", "", None),
        ("-", 100, "a", "", Some(0)),
    ];
    for (before, count, middle, behind, place) in rows {
        let text = nest(rt.alloc(), before, count, middle, behind)?;
        let want = match place {
            Some(place) => Some(ParseFault {
                place,
                kind: ParseKind::TooDeep,
            }),
            None => None,
        };
        let got = refusal(rt.alloc(), text.as_str())?;
        assert_eq!(rt; got, want, "at {before} {count}");
    }
    let late = nest(rt.alloc(), ");", 501, "", "")?;
    let got = refusal(rt.alloc(), late.as_str())?;
    let want = ParseFault {
        place: 1000,
        kind: ParseKind::TooDeep,
    };
    assert_eq!(rt; got, Some(want));
    Ok(())
}

#[test]
fn a_one_time_binding_begins_with_two_colons(rt: HostRuntime) {
    let rows = [
        ("", false, ""),
        ("  ", false, ""),
        (" a + b ", false, "a + b"),
        ("::a", true, "a"),
        (" \u{a0}::\t a b \n", true, "a b"),
        ("::", true, ""),
        (":::a", true, ":a"),
        (":a", false, ":a"),
        (": :a", false, ": :a"),
        ("a::", false, "a::"),
        ("\u{e9} \u{c}", false, "\u{e9} \u{c}"),
    ];
    for (text, once, rest) in rows {
        assert_eq!(rt; one_time(text), (once, rest), "at {text}");
    }
}
