//! The lines of a step.
ghost use Rattle.std.specs.Prelude.{◌≡◌, ◌++◌, IfOk, OnOk, option_map, encode_utf8_all};
ghost use Rattle.std.specs.List.{flat_map};
ghost use Rattle.ng_digest.specs.Early.{plain_answer};
ghost use Rattle.ng_markup.specs.Forest.{text_char};
ghost use Rattle.ng_printing.specs.Lines.{header as header_of, faults, action_line, trace_line, failed_line, digest_line, probe_line, probe_lines};
ghost use Rattle.ng_printing.specs.Lines.{told_lines};

use ng_base::fault::{Fault, Memory};
use ng_base::lists::Words;
use ng_base::txt::Txt;
use ng_digest::log::Report;
use ng_digest::rounds::DigestFault;
use ng_html::forest::{Forest, text_node};
use ng_html::write;
use ng_inputs::names::push_number;
use std::alloc::{AllocError, Global};

/// The line that a step begins with: its number and its command.
pub fn header(alloc: Global, number: u64, command: &Txt) -> Result<Vec<u8>, AllocError>
    ensures { IfOk result (λ v. v.items ≡ header_of number command.now) }
{
    let mut bytes = Vec::from_slice(alloc, "# ".as_bytes())?;
    push_number(&mut bytes, number)?;
    bytes.extend_from_slice(" ".as_bytes())?;
    bytes.extend_from_slice(command.as_str().as_bytes())?;
    bytes.extend_from_slice("\n".as_bytes())?;
    Ok(bytes)
}

/// As many faults, of which this is the first.
fn fault_words(alloc: Global, count: u32, first: &Fault) -> Result<Vec<u8>, AllocError>
    ensures { IfOk result (λ v. v.items ≡ faults count first.now) }
{
    let mut bytes = Vec::new(alloc);
    push_number(&mut bytes, u64::from(count))?;
    bytes.extend_from_slice(" ".as_bytes())?;
    bytes.extend_from_slice(first.name().as_bytes())?;
    bytes.extend_from_slice("\n".as_bytes())?;
    Ok(bytes)
}

/// A word and as many faults.
fn fault_line(alloc: Global, word: &str, count: u32, first: &Fault) -> Result<Vec<u8>, AllocError>
    ensures { IfOk result (λ v. v.items ≡ word.now ++ faults count first.now) }
{
    let mut bytes = Vec::new(alloc);
    bytes.extend_from_slice(word.as_bytes())?;
    let words = fault_words(alloc, count, first)?;
    bytes.extend_from_slice(words.as_slice())?;
    Ok(bytes)
}

/// The line of a program that handed faults over.
pub(crate) fn action(
    alloc: Global,
    count: u32,
    first: &Option<Fault>,
) -> Result<Vec<u8>, AllocError>
    ensures { IfOk result (λ v. v.items ≡ action_line count first.now) }
{
    match first {
        None => Ok(Vec::new(alloc)),
        Some(fault) => fault_line(alloc, "action: fault ", count, fault),
    }
}

/// The bytes of a text.
fn bytes_of(alloc: Global, text: &str) -> Result<Vec<u8>, AllocError>
    ensures { IfOk result (λ v. v.items ≡ text.now) }
{
    Vec::from_slice(alloc, text.as_bytes())
}

/// The line of a digest that did not answer Ok.
fn failed_digest(alloc: Global, fault: &DigestFault) -> Result<Vec<u8>, AllocError>
    ensures { IfOk result (λ v. v.items ≡ failed_line fault.now) }
{
    match fault {
        DigestFault::Infdig => bytes_of(alloc, "digest: infdig\n"),
        DigestFault::FireLimit => bytes_of(alloc, "digest: firelimit\n"),
        DigestFault::AsyncLimit => bytes_of(alloc, "digest: asynclimit\n"),
        DigestFault::Faulted { first, count } => fault_line(alloc, "digest: fault ", *count, first),
        DigestFault::Memory(_) => Ok(Vec::new(alloc)),
    }
}

/// The line of a step's digest, where it failed.
pub(crate) fn digested(
    alloc: Global,
    digest: &Option<Result<Report, DigestFault>>,
) -> Result<Vec<u8>, AllocError>
    ensures { IfOk result (λ v. v.items ≡ digest_line (option_map plain_answer digest.now)) }
{
    match digest {
        None => Ok(Vec::new(alloc)),
        Some(Ok(_)) => Ok(Vec::new(alloc)),
        Some(Err(fault)) => failed_digest(alloc, fault),
    }
}

/// What a digest that answered Ok took.
fn trace(alloc: Global, report: &Report) -> Result<Vec<u8>, AllocError>
    ensures { IfOk result (λ v. v.items ≡ trace_line report.now) }
{
    let mut bytes = Vec::from_slice(alloc, "~ rounds ".as_bytes())?;
    push_number(&mut bytes, u64::from(report.rounds))?;
    bytes.extend_from_slice(" fires ".as_bytes())?;
    push_number(&mut bytes, u64::from(report.fires))?;
    bytes.extend_from_slice(" tests ".as_bytes())?;
    push_number(&mut bytes, report.tests)?;
    bytes.extend_from_slice("\n".as_bytes())?;
    Ok(bytes)
}

/// The trace of a step's digest, where it is asked for.
pub(crate) fn told(
    alloc: Global,
    is_traced: bool,
    digest: &Option<Result<Report, DigestFault>>,
) -> Result<Vec<u8>, AllocError>
    ensures { IfOk result (λ v. v.items ≡ told_lines is_traced digest.now) }
{
    if !is_traced {
        return Ok(Vec::new(alloc));
    }
    match digest {
        None => Ok(Vec::new(alloc)),
        Some(Ok(report)) => trace(alloc, report),
        Some(Err(_)) => Ok(Vec::new(alloc)),
    }
}

/// Adds a text as it is printed in a document.
fn push_text(alloc: Global, into: &mut Vec<u8>, text: &Txt) -> Result<(), Memory>
    ensures { OnOk result (into.new.items ≡ into.old.items ++ encode_utf8_all (flat_map text_char text.now)) }
{
    let mut document = Forest::new(alloc);
    document.push(text_node(text.copied()?))?;
    write(&document, into)
}

/// Adds the line of a probe.
fn push_probe(alloc: Global, into: &mut Vec<u8>, text: &Txt) -> Result<(), Memory>
    ensures { OnOk result (into.new.items ≡ into.old.items ++ probe_line text.now) }
{
    into.extend_from_slice("= ".as_bytes())?;
    push_text(alloc, into, text)?;
    into.extend_from_slice("\n".as_bytes())?;
    Ok(())
}

/// The lines of the probes.
pub(crate) fn probes(alloc: Global, texts: &Words) -> Result<Vec<u8>, Memory>
    ensures { IfOk result (λ v. v.items ≡ probe_lines texts.now) }
{
    let mut bytes = Vec::new(alloc);
    let list = texts.as_slice();
    for text in list {
        push_probe(alloc, &mut bytes, text)?;
    }
    Ok(bytes)
}
