//! The places of the tokens of a text, and the first refusal of one that has none.
use crate::rows::{column, spelled};
use ng_lex::lex;
use std::alloc::{AllocError, Global};

/// A text, and the places of its tokens.
const PLACES: &str = r#"→
a1_$ $b→0 5
a===b→0 1 4
a==b→0 1 3
a=b→0 1 2
a!==b!=!c→0 1 4 5 7 8
a====b→0 1 4 5
<=<>=>→0 2 3 5
a||b|c&&d→0 1 3 4 5 6 8
+-*/%?:;,.→0 1 2 3 4 5 6 7 8 9
()[]{}→0 1 2 3 4 5
9007199254740991→0
007→0
1x→0 1
5 .a→0 2 3
"it's"→0
'\n\f\r\t\v\'\q'→0
'\u0041\u00e9' b→0 15
'é'a→0 4"#;

/// The places of a text's tokens, or why it is refused.
fn placed(alloc: Global, text: &str) -> Result<String, AllocError> {
    match lex(alloc, text) {
        Ok(tokens) => spelled(alloc, tokens.places.as_slice()),
        Err(fault) => format!(in alloc; "{fault}"),
    }
}

#[test]
fn each_token_has_the_place_where_it_begins(rt: HostRuntime) -> Result<(), AllocError> {
    for row in PLACES.split('\n') {
        let (text, want) = column(row);
        let got = placed(rt.alloc(), text)?;
        assert_eq!(rt; got.as_str(), want, "at {text}");
    }
    let blank = placed(rt.alloc(), " \t\r\n\u{b}\u{a0}")?;
    assert_eq!(rt; blank.as_str(), "");
    Ok(())
}

#[test]
fn a_text_ends_behind_its_last_character(rt: HostRuntime) {
    for row in PLACES.split('\n') {
        let (text, _) = column(row);
        match lex(rt.alloc(), text) {
            Ok(tokens) => assert_eq!(rt; tokens.end, text.len() as u64),
            Err(fault) => panic!(rt; "{fault} at {text}"),
        }
    }
}

/// A text, and the place of its first refusal and why.
const REFUSED: &str = r#"#→0 BadChar
a @ b→2 BadChar
a&b→1 BadChar
a + é→4 BadChar
a # 'b→2 BadChar
'abc→0 OpenText
a "b→2 OpenText
'a\'→0 OpenText
'\u12→0 OpenText
'\u12'→1 BadEscape
'\u'→1 BadEscape
x 'é\u00g0'→5 BadEscape
'a\uD800'→2 BadEscape
'a\udfff' #→2 BadEscape
9007199254740992→0 BigNumber
a+99999999999999999999999999→2 BigNumber
9007199254740992.5→0 BigNumber
1.→0 Fraction
1e→0 Fraction
a*1E5→2 Fraction
.5→0 Fraction
a.5→1 Fraction
1.a→0 Fraction"#;

/// Where and why a text has no tokens.
fn refusal(alloc: Global, text: &str) -> Result<String, AllocError> {
    match lex(alloc, text) {
        Ok(_) => String::from_str(alloc, "read"),
        Err(fault) => format!(in alloc; "{} {:?}", fault.place, fault.kind),
    }
}

#[test]
fn the_first_refusal_from_the_left_stands(rt: HostRuntime) -> Result<(), AllocError> {
    for row in REFUSED.split('\n') {
        let (text, want) = column(row);
        let got = refusal(rt.alloc(), text)?;
        assert_eq!(rt; got.as_str(), want, "at {text}");
    }
    Ok(())
}
