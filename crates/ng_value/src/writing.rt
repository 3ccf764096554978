//! Values written into a text.
ghost use Rattle.std.specs.Prelude.{◌≡◌, ◌<◌, ◌++◌, ◌∷◌, [], OnOk, IfOk, IfErr};
ghost use Rattle.std.specs.Fmt.{signed_decimal};
ghost use Rattle.ng_base.specs.declared.fault.Memory.TheVariants.{Refused};
ghost use Rattle.ng_language.specs.Texts.{bool_text, value_text, hex_digit, plain_char, escaped_char, escaped, quoted, json_value, deeper, line, colon};

use ng_base::fault::Memory;
use ng_base::reader::Plain;
use ng_base::txt::Txt;
use ng_base::value::Value;

fn push_bool(out: &mut Txt, b: bool) -> Result<(), Memory>
    ensures text { OnOk result (out.new ≡ out.old ++ bool_text b) }
    ensures refused { IfErr result (λ e. e ≡ Refused) }
{
    if b {
        out.push_word("true")?;
    } else {
        out.push_word("false")?;
    }
    Ok(())
}

pub(crate) fn push_int(out: &mut Txt, n: i64) -> Result<(), Memory>
    ensures text { OnOk result (out.new ≡ out.old ++ signed_decimal n) }
    ensures refused { IfErr result (λ e. e ≡ Refused) }
{
    if n < 0 {
        out.push('-')?;
    }
    out.push_number(n.unsigned_abs())?;
    Ok(())
}

/// A value as a text.
pub(crate) fn push_value(out: &mut Txt, v: &Value) -> Result<(), Memory>
    ensures text { OnOk result (out.new ≡ out.old ++ value_text v.now) }
    ensures refused { IfErr result (λ e. e ≡ Refused) }
{
    match v {
        Value::Undefined => out.push_word("undefined")?,
        Value::Null => out.push_word("null")?,
        Value::Bool(b) => push_bool(out, *b)?,
        Value::Int(n) => push_int(out, *n)?,
        Value::Nan => out.push_word("NaN")?,
        Value::Text(t) => out.push_txt(t)?,
        Value::Obj(_) => out.push_word("[object Object]")?,
        Value::Fun(_) => out.push_word("function")?,
    }
    Ok(())
}

/// A value as JSON.
pub(crate) fn push_json_value(out: &mut Txt, v: &Value) -> Result<(), Memory>
    ensures text { OnOk result (out.new ≡ out.old ++ json_value v.now) }
    ensures refused { IfErr result (λ e. e ≡ Refused) }
{
    match v {
        Value::Undefined => out.push_word("null")?,
        Value::Null => out.push_word("null")?,
        Value::Bool(b) => push_bool(out, *b)?,
        Value::Int(n) => push_int(out, *n)?,
        Value::Nan => out.push_word("null")?,
        Value::Text(t) => push_quoted(out, t)?,
        Value::Obj(_) => out.push_word("\"$SCOPE\"")?,
        Value::Fun(_) => out.push_word("null")?,
    }
    Ok(())
}

/// A text in quotes.
pub(crate) fn push_quoted(out: &mut Txt, t: &Txt) -> Result<(), Memory>
    ensures text { OnOk result (out.new ≡ out.old ++ quoted t.now) }
    ensures refused { IfErr result (λ e. e ≡ Refused) }
{
    out.push('"')?;
    push_escaped(out, t)?;
    out.push('"')?;
    Ok(())
}

fn push_escaped(out: &mut Txt, t: &Txt) -> Result<(), Memory>
    ensures text { OnOk result (out.new ≡ out.old ++ escaped t.now) }
    ensures refused { IfErr result (λ e. e ≡ Refused) }
{
    let mut reader = Plain::new(t.as_str());
    while let Some(c) = reader.next() {
        push_char(out, c)?;
    }
    Ok(())
}

/// A character inside a JSON text.
fn push_char(out: &mut Txt, c: char) -> Result<(), Memory>
    ensures text { OnOk result (out.new ≡ out.old ++ escaped_char c) }
    ensures refused { IfErr result (λ e. e ≡ Refused) }
{
    match c {
        '"' => out.push_word("\\\"")?,
        '\\' => out.push_word("\\\\")?,
        '\u{8}' => out.push_word("\\b")?,
        '\u{c}' => out.push_word("\\f")?,
        '\n' => out.push_word("\\n")?,
        '\r' => out.push_word("\\r")?,
        '\t' => out.push_word("\\t")?,
        _ => push_plain(out, c)?,
    }
    Ok(())
}

fn push_plain(out: &mut Txt, c: char) -> Result<(), Memory>
    ensures text { OnOk result (out.new ≡ out.old ++ plain_char c) }
    ensures refused { IfErr result (λ e. e ≡ Refused) }
{
    if (c as u32) < 32 {
        out.push_word("\\u00")?;
        push_hex(out, c as u32 / 16)?;
        push_hex(out, c as u32 % 16)?;
    } else {
        out.push(c)?;
    }
    Ok(())
}

fn push_hex(out: &mut Txt, d: u32) -> Result<(), Memory>
    requires { d < 16 }
    ensures text { OnOk result (out.new ≡ out.old ++ hex_digit d ∷ []) }
    ensures refused { IfErr result (λ e. e ≡ Refused) }
{
    out.push(hex(d))?;
    Ok(())
}

fn hex(d: u32) -> char
    requires { d < 16 }
    ensures { result ≡ hex_digit d }
{
    match d {
        0 => '0',
        1 => '1',
        2 => '2',
        3 => '3',
        4 => '4',
        5 => '5',
        6 => '6',
        7 => '7',
        8 => '8',
        9 => '9',
        10 => 'a',
        11 => 'b',
        12 => 'c',
        13 => 'd',
        14 => 'e',
        _ => 'f',
    }
}

/// The margin one level down.
pub(crate) fn deeper(margin: &Txt, indent: u8) -> Result<Txt, Memory>
    ensures text { IfOk result (λ t. t ≡ deeper indent margin.now) }
    ensures refused { IfErr result (λ e. e ≡ Refused) }
{
    let mut inner = margin.copied()?;
    let mut left = indent;
    while left > 0 {
        inner.push(' ')?;
        left -= 1;
    }
    Ok(inner)
}

/// A new line with its margin, where there is an indent.
pub(crate) fn push_line(out: &mut Txt, indent: u8, margin: &Txt) -> Result<(), Memory>
    ensures text { OnOk result (out.new ≡ out.old ++ line indent margin.now) }
    ensures refused { IfErr result (λ e. e ≡ Refused) }
{
    if indent == 0 {
        return Ok(());
    }
    out.push('\n')?;
    out.push_txt(margin)?;
    Ok(())
}

pub(crate) fn push_colon(out: &mut Txt, indent: u8) -> Result<(), Memory>
    ensures text { OnOk result (out.new ≡ out.old ++ colon indent) }
    ensures refused { IfErr result (λ e. e ≡ Refused) }
{
    if indent == 0 {
        out.push_word(":")?;
    } else {
        out.push_word(": ")?;
    }
    Ok(())
}
