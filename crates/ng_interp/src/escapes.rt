//! Braces after backslashes, which open and end no hole.
ghost use Rattle.std.specs.Prelude.{◌≡◌, IfOk};
ghost use Rattle.ng_interp.specs.Escapes.{escape_at, unescaped};

use ng_base::reader::Plain;
use ng_base::txt::Txt;
use std::alloc::{AllocError, Global};

/// The brace of an escape, and what stands after it, where a text begins so.
fn past_escape<'a>(text: &Plain<'a>) -> Option<(char, Plain<'a>)>
    ensures { result ≡ escape_at text.now }
{
    let (a, after_a) = text.first()?;
    let (b, after_b) = after_a.first()?;
    let (c, after_c) = after_b.first()?;
    let (d, after_d) = after_c.first()?;
    if a == '\\' && c == '\\' && d == b && (b == '{' || b == '}') {
        Some((b, after_d))
    } else {
        None
    }
}

/// A text as it reads: `\{\{` and `\}\}` are two braces.
pub fn read_escapes(alloc: Global, text: &Txt) -> Result<Txt, AllocError>
    ensures { IfOk result (λ t. t ≡ unescaped text.now) }
{
    let mut plain = Txt::new(alloc);
    let mut reader = Plain::new(text.as_str());
    while let Some((c, rest)) = reader.first() {
        match past_escape(&reader) {
            Some((brace, after)) => {
                plain.push(brace)?;
                plain.push(brace)?;
                reader = after;
            }
            None => {
                let (run, others) = rest.run();
                plain.push(c)?;
                plain.push_str(run)?;
                reader = others;
            }
        }
    }
    Ok(plain)
}
