//! Lexing and parsing.
use ng_lex::lex;
use ng_parse::parse;
use std::alloc::Global;

/// A list literal of 999 tokens.
fn program(alloc: Global) -> Option<String> {
    let mut text = String::new(alloc);
    text.push_str("[a").ok()?;
    for _ in 0..498 {
        text.push_str(",a").ok()?;
    }
    text.push_str("]").ok()?;
    Some(text)
}

/// How many programs were read.
pub(crate) fn parsed(alloc: Global, size: u64) -> Option<u64> {
    let text = program(alloc)?;
    let mut count: u64 = 0;
    for _ in 0..size {
        let tokens = lex(alloc, text.as_str()).ok()?;
        if parse(alloc, &tokens).is_ok() {
            count = count.saturating_add(1);
        }
    }
    Some(count)
}
