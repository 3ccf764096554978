//! The places of a document's nodes, and a forest that no document was read for.
use crate::rows::{column, spelled};
use ng_base::txt::Txt;
use ng_html::forest::{Forest, comment_node, element_node, text_node};
use ng_html::{Attrs, read, write};
use std::alloc::{AllocError, Global};

/// A document, and the places of its nodes in document order.
const PLACES: &str = "<p>Hi {{name}}</p>→0 3
<area><base><br>→0 6 12
<col><embed><hr>→0 5 12
<img><input><link>→0 5 12
<meta><param>→0 6
<source><track><wbr>→0 8 15
<br/><hr />x→0 5 11
<BR><p>a</P >→0 4 7
<textarea>a<b></textarea>→0 10
<title></title>→0
<title>&lt;</titles></title >→0 7
<ul><li>a<li>b</ul>→0 4 8 9 13
<dl><dt>a<dd>b<dt>c</dl>→0 4 8 9 13 14 18
<dt><dt><dd><dd>→0 4 8 12
<select><option>a<option>b</select>→0 8 16 17 25
<table><tr><td>a<th>b<tr><td>c</table>→0 7 11 15 16 20 21 25 29
<th><td><tr>→0 4 8
<td><li><td>→0 4 8
<li><dd><li>→0 4 8
<li><p>a<li>b</li></p></li>→0 4 7 8 12
<li>a→0 4
<tr><td>x→0 4 8
<p><li>a</p>b→0 3 7 12
<div><li><dd><option></li></div>→0 5 9 13
<DIV ID=a Class='b c'></Div>→0
<p a=1 b A=2></p>→0
<input a=b/>→0
a < b→0
<→0
<><3<→0
a &amp; b&lt;→0
&copy;&#169;&#xa9;→0
&#X41;& &nope; &amp→0
é<i>{x}}}</i>→0 2 5
<!----><!-->-->→0 7
<!-- <b> &amp; -- -->→0
<!DOCTYPE html><p></p>→15
 <b></b>→0 1
<my-a><x:y><h1_></h1_></x:y></my-a>→0 6 11";

/// The same of documents of several lines.
const LINES: [(&str, &str); 12] = [
    ("<textarea>\n\nx</textarea>", "0 11"),
    ("<textarea>\n</textarea>", "0"),
    ("<pre>\n</pre>", "0"),
    ("<pre>\r\n\nx</pre>", "0 7"),
    ("<p>\n</p>", "0 3"),
    ("<p a = \"x\"b='&quot;\n'></p>", "0"),
    ("a > b\n", "0"),
    ("a\r\nb\rc", "0"),
    ("\r\n<b></b>", "0 2"),
    ("a<!-- b\nc -->d", "0 1 13"),
    (" \n<!doctype html>x", "17"),
    ("<!doctype html>\n", "15"),
];

/// The places of a document's nodes, or why it is refused.
fn placed(alloc: Global, document: &str) -> Result<String, AllocError> {
    match read(alloc, document.as_bytes()) {
        Ok(source) => spelled(alloc, source.places.as_slice()),
        Err(e) => format!(in alloc; "{e}"),
    }
}

#[test]
fn each_node_has_the_place_where_it_begins(rt: HostRuntime) -> Result<(), AllocError> {
    for row in PLACES.split('\n') {
        let (document, want) = column(row);
        let got = placed(rt.alloc(), document)?;
        assert_eq!(rt; got.as_str(), want, "at {document}");
    }
    Ok(())
}

#[test]
fn line_feeds_and_returns_have_places(rt: HostRuntime) -> Result<(), AllocError> {
    for (document, want) in LINES {
        let got = placed(rt.alloc(), document)?;
        assert_eq!(rt; got.as_str(), want, "at {document}");
    }
    Ok(())
}

fn printed(alloc: Global, f: &Forest) -> Vec<u8> {
    let mut into = Vec::new(alloc);
    match write(f, &mut into) {
        Ok(()) => into,
        Err(_) => Vec::new(alloc),
    }
}

fn made(alloc: Global) -> Result<Forest, AllocError> {
    let mut attrs = Attrs::new(alloc);
    attrs.push(
        Txt::from_str(alloc, "id")?,
        Txt::from_str(alloc, "a\"&<\n")?,
    )?;
    let mut kids = Forest::new(alloc);
    kids.push(text_node(Txt::from_str(alloc, "&<>\"\r")?))?;
    kids.push(comment_node(Txt::from_str(alloc, " c ")?))?;
    let mut f = Forest::new(alloc);
    f.push(element_node(Txt::from_str(alloc, "p")?, attrs, kids))?;
    f.push(element_node(
        Txt::from_str(alloc, "br")?,
        Attrs::new(alloc),
        Forest::new(alloc),
    ))?;
    Ok(f)
}

#[test]
fn a_made_forest_is_printed(rt: HostRuntime) -> Result<(), AllocError> {
    let f = made(rt.alloc())?;
    let want = "<p id=\"a&quot;&amp;<&#10;\">&amp;&lt;&gt;\"&#13;<!-- c --></p><br>";
    let print = printed(rt.alloc(), &f);
    assert!(rt; print.as_slice() == want.as_bytes());
    assert_eq!(rt; f.nodes().len(), 2);
    Ok(())
}
