//! Prints a forest.
ghost use Rattle.std.specs.Prelude.{◌≡◌, ◌++◌, ◌∷◌, [], OnOk, IfErr, encode_utf8_all, codes};
ghost use Rattle.std.specs.Str.{chars};
ghost use Rattle.std.specs.List.{flat_map};
ghost use Rattle.ng_base.specs.Word.{IsWord};
ghost use Rattle.ng_base.specs.declared.fault.Memory.TheVariants.{Refused};
ghost use Rattle.ng_markup.specs.Forest.{element, comment, text_char, value_char, print_attribute, print_start, print_end, print_node, print};
ghost use Rattle.ng_html.specs.Attrs.{attr_of};
ghost use Rattle.ng_html.specs.Laws.{PrintsBack};
ghost use Rattle.ng_html.specs.Seen.{node_of, forest_of};

use crate::forest::{Forest, Node};
use crate::tables::void;
use ng_base::fault::Memory;
use ng_base::reader::Plain;
use ng_base::txt::Txt;
use ng_tags::attrs::{Attr, Attrs};
use std::alloc::AllocError;

#[tactic(auto, using(crate::proofs::Prints::print_steps))]
fn push_str(into: &mut Vec<u8>, s: &str) -> Result<(), AllocError>
    ensures { OnOk result (into.new.items ≡ into.old.items ++ encode_utf8_all (chars s.now)) }
{
    into.extend_from_slice(s.as_bytes())
}

fn push_txt(into: &mut Vec<u8>, t: &Txt) -> Result<(), AllocError>
    ensures { OnOk result (into.new.items ≡ into.old.items ++ encode_utf8_all t.now) }
{
    into.extend_from_slice(t.as_str().as_bytes())
}

/// Appends a word of ASCII characters.
#[tactic(auto, using(crate::proofs::Prints::word_steps))]
fn push_word(into: &mut Vec<u8>, word: &str) -> Result<(), AllocError>
    requires { IsWord word.now }
    ensures { OnOk result (into.new.items ≡ into.old.items ++ encode_utf8_all word.now) }
{
    push_str(into, word)
}

fn push_char(into: &mut Vec<u8>, c: char) -> Result<(), AllocError>
    ensures { OnOk result (into.new.items ≡ into.old.items ++ encode_utf8_all (c ∷ [])) }
{
    if c.is_ascii() {
        into.push(c as u8)?;
        return Ok(());
    }
    let mut buffer = [0; 4];
    let encoded = c.encode_utf8(&mut buffer);
    into.extend_from_slice(encoded.as_bytes())
}

fn push_text_char(into: &mut Vec<u8>, c: char) -> Result<(), AllocError>
    ensures { OnOk result (into.new.items ≡ into.old.items ++ encode_utf8_all (text_char c)) }
{
    match c {
        '&' => push_word(into, "&amp;"),
        '<' => push_word(into, "&lt;"),
        '>' => push_word(into, "&gt;"),
        '\n' => push_word(into, "&#10;"),
        '\r' => push_word(into, "&#13;"),
        _ => push_char(into, c),
    }
}

fn push_value_char(into: &mut Vec<u8>, c: char) -> Result<(), AllocError>
    ensures { OnOk result (into.new.items ≡ into.old.items ++ encode_utf8_all (value_char c)) }
{
    match c {
        '&' => push_word(into, "&amp;"),
        '"' => push_word(into, "&quot;"),
        '\n' => push_word(into, "&#10;"),
        '\r' => push_word(into, "&#13;"),
        _ => push_char(into, c),
    }
}

#[tactic(auto, using(crate::proofs::Prints::print_steps, crate::proofs::PlainPrint::plain_text))]
fn push_text(into: &mut Vec<u8>, t: &Txt) -> Result<(), AllocError>
    ensures { OnOk result (into.new.items ≡ into.old.items ++ encode_utf8_all (flat_map text_char t.now)) }
{
    let mut reader = Plain::new(t.as_str());
    while let Some((c, rest)) = reader.first() {
        push_text_char(into, c)?;
        let (front, behind) = rest.run();
        push_str(into, front)?;
        reader = behind;
    }
    Ok(())
}

#[tactic(auto, using(crate::proofs::Prints::print_steps, crate::proofs::PlainPrint::plain_value))]
fn push_value(into: &mut Vec<u8>, t: &Txt) -> Result<(), AllocError>
    ensures { OnOk result (into.new.items ≡ into.old.items ++ encode_utf8_all (flat_map value_char t.now)) }
{
    let mut reader = Plain::new(t.as_str());
    while let Some((c, rest)) = reader.first() {
        push_value_char(into, c)?;
        let (front, behind) = rest.run();
        push_str(into, front)?;
        reader = behind;
    }
    Ok(())
}

#[tactic(auto, using(crate::proofs::Prints::print_steps))]
fn push_attribute(into: &mut Vec<u8>, a: &Attr) -> Result<(), AllocError>
    ensures { OnOk result (into.new.items ≡ into.old.items ++ encode_utf8_all (print_attribute (attr_of a.now))) }
{
    push_word(into, " ")?;
    push_txt(into, &a.name)?;
    push_word(into, "=\"")?;
    push_value(into, &a.value)?;
    push_word(into, "\"")
}

#[tactic(auto, using(crate::proofs::Prints::print_steps))]
fn push_attributes(into: &mut Vec<u8>, attrs: &Attrs) -> Result<(), AllocError>
    ensures { OnOk result (into.new.items ≡ into.old.items ++ encode_utf8_all (flat_map print_attribute attrs.now)) }
{
    for a in attrs.as_slice() {
        push_attribute(into, a)?;
    }
    Ok(())
}

#[tactic(auto, using(crate::proofs::Prints::print_steps))]
fn push_start(into: &mut Vec<u8>, name: &Txt, attrs: &Attrs) -> Result<(), AllocError>
    ensures { OnOk result (into.new.items ≡ into.old.items ++ encode_utf8_all (print_start name.now attrs.now)) }
{
    push_word(into, "<")?;
    push_txt(into, name)?;
    push_attributes(into, attrs)?;
    push_word(into, ">")
}

#[tactic(auto, using(crate::proofs::Prints::print_steps))]
fn push_end(into: &mut Vec<u8>, name: &Txt) -> Result<(), AllocError>
    ensures { OnOk result (into.new.items ≡ into.old.items ++ encode_utf8_all (print_end name.now)) }
{
    push_word(into, "</")?;
    push_txt(into, name)?;
    push_word(into, ">")
}

#[tactic(auto, using(crate::proofs::Prints::print_steps))]
fn push_comment(into: &mut Vec<u8>, t: &Txt) -> Result<(), AllocError>
    ensures { OnOk result (into.new.items ≡ into.old.items ++ encode_utf8_all (print_node (comment t.now))) }
{
    push_word(into, "<!--")?;
    push_txt(into, t)?;
    push_word(into, "-->")
}

#[tactic(auto, using(crate::proofs::Prints::print_steps))]
#[cycle(write)]
fn push_node(n: &Node, into: &mut Vec<u8>) -> Result<(), AllocError>
    ensures { OnOk result (into.new.items ≡ into.old.items ++ encode_utf8_all (print_node (node_of n.now))) }
{
    match n {
        Node::Text(t) => push_text(into, t),
        Node::Comment(t) => push_comment(into, t),
        Node::Element { name, attrs, kids } => push_element(name, attrs, kids, into),
    }
}

#[cycle(write)]
fn push_element(
    name: &Txt,
    attrs: &Attrs,
    kids: &Forest,
    into: &mut Vec<u8>,
) -> Result<(), AllocError>
    ensures { OnOk result (into.new.items ≡ into.old.items ++ encode_utf8_all (print_node (element name.now attrs.now (forest_of kids.now)))) }
{
    push_start(into, name, attrs)?;
    if void(name) {
        return Ok(());
    }
    push_forest(kids, into)?;
    push_end(into, name)
}

#[tactic(auto, using(crate::proofs::Prints::print_steps))]
#[cycle(write)]
fn push_forest(f: &Forest, into: &mut Vec<u8>) -> Result<(), AllocError>
    ensures { OnOk result (into.new.items ≡ into.old.items ++ encode_utf8_all (print (forest_of f.now))) }
{
    for n in &f.items {
        push_node(n, into)?;
    }
    Ok(())
}

/// Appends the print of a forest.
pub fn write(f: &Forest, into: &mut Vec<u8>) -> Result<(), Memory>
    ensures refused { IfErr result (λ m. m ≡ Refused) }
    ensures printed { OnOk result (into.new.items ≡ into.old.items ++ encode_utf8_all (print (forest_of f.now))) }
{
    push_forest(f, into)?;
    Ok(())
}

/// The print of a document's forest is read as the same forest: it spells it, and what is spelled is read.
pub fn prints_back()
    ensures { PrintsBack }
{}
