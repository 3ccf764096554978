//! Which rows a repeat keeps (API: `ngRepeat`, "Tracking and Duplicates"), and which cases a switch shows.
ghost use Rattle.std.specs.Prelude.{◌≡◌, ◌<◌, ◌^◌, length, false, IfSome};
ghost use Rattle.ng_blocks.specs.Plans.{has_double};

use crate::rows::column;
use ng_base::lists::{Numbers, Sources};
use ng_base::name::{FunId, Oid};
use ng_base::txt::Txt;
use ng_base::value::Value;
use ng_blocks::{Cases, Plan, PlanFault, TrackKey, TrackKeys, cases, plan};
use std::alloc::{AllocError, Global};

/// The key that a character stands for: a digit for a number, `!` for a truth value, `@` for an object, `%` for a
/// function, `#` for a place, `'` for the text "1" as a value, `~` for it as a track text, a letter for a text.
fn key_of(alloc: Global, c: char) -> Option<TrackKey> {
    let key = match c {
        '0' => TrackKey::Prim(Value::Int(0)),
        '1' => TrackKey::Prim(Value::Int(1)),
        '2' => TrackKey::Prim(Value::Int(-1)),
        'u' => TrackKey::Prim(Value::Undefined),
        'n' => TrackKey::Prim(Value::Null),
        'N' => TrackKey::Prim(Value::Nan),
        '!' => TrackKey::Prim(Value::Bool(true)),
        '?' => TrackKey::Prim(Value::Bool(false)),
        '@' => TrackKey::Prim(Value::Obj(Oid(1))),
        '%' => TrackKey::Prim(Value::Fun(FunId(1))),
        '#' => TrackKey::Place(1),
        '\'' => TrackKey::Prim(Value::Text(Txt::from_str(alloc, "1").ok()?)),
        '~' => TrackKey::Text(Txt::from_str(alloc, "1").ok()?),
        _ => {
            let mut text = Txt::new(alloc);
            text.push(c).ok()?;
            TrackKey::Prim(Value::Text(text))
        }
    };
    Some(key)
}

fn entries_of(alloc: Global, keys: &str) -> Option<TrackKeys> {
    let mut entries = TrackKeys::new(alloc);
    for c in keys.chars() {
        entries.push(key_of(alloc, c)?).ok()?;
    }
    Some(entries)
}

/// Rows with these keys, where they differ.
fn rows_of(alloc: Global, keys: &str) -> Option<TrackKeys>
    ensures { IfSome result (λ r. (has_double r ≡ false) × (length r < 2 ^ 32)) }
{
    let entries = entries_of(alloc, keys)?;
    if entries.as_slice().len() > 1_000 {
        return None;
    }
    let nothing = TrackKeys::new(alloc);
    match plan(alloc, &nothing, &entries) {
        Ok(_) => Some(entries),
        Err(_) => None,
    }
}

fn write_numbers(out: &mut Txt, numbers: &Numbers) -> Result<(), AllocError> {
    for n in numbers.as_slice() {
        out.push_number(*n as u64)?;
        out.push(' ')?;
    }
    Ok(())
}

fn write_sources(out: &mut Txt, sources: &Sources) -> Result<(), AllocError> {
    for source in sources.as_slice() {
        out.push(' ')?;
        match source {
            Some(n) => out.push_number(*n as u64)?,
            None => out.push('-')?,
        }
    }
    Ok(())
}

/// The rows that go, a `;`, and the row that each entry comes from.
fn write_plan(out: &mut Txt, plan: &Plan) -> Result<(), AllocError> {
    write_numbers(out, &plan.gone)?;
    out.push(';')?;
    write_sources(out, &plan.from)
}

fn planned(alloc: Global, old: &str, new: &str) -> Option<Txt> {
    let rows = rows_of(alloc, old)?;
    let entries = entries_of(alloc, new)?;
    let mut out = Txt::new(alloc);
    match plan(alloc, &rows, &entries) {
        Ok(plan) => write_plan(&mut out, &plan).ok()?,
        Err(PlanFault::Dupes) => out.push_str("Dupes").ok()?,
        Err(PlanFault::Memory(_)) => return None,
    }
    Some(out)
}

const PLANS: &str = "→→;
→abc→; - - -
abc→→0 1 2 ;
abc→abc→; 0 1 2
abc→cba→; 2 1 0
abc→bca→; 1 2 0
abcd→bd→0 2 ; 1 3
abc→axc→1 ; 0 - 2
ab→xaby→; - 0 1 -
abc→xyz→0 1 2 ; - - -
abcd→dxa→1 2 ; 3 - 0
a→aa→Dupes
→aba→Dupes
abc→abca→Dupes
abc→xbyb→Dupes
N→NN→Dupes
1'~#!@%→%@!#~'1→; 6 5 4 3 2 1 0
0?un→nu?0→; 3 2 1 0
12→21→; 1 0
1→'→0 ; -
'→~→0 ; -
#→1→0 ; -";

#[test]
fn rows_are_kept_by_their_keys(rt: HostRuntime) {
    for row in PLANS.split('\n') {
        let (old, rest) = column(row);
        let (new, want) = column(rest);
        let Some(got) = planned(rt.alloc(), old, new) else {
            panic!(rt; "memory");
        };
        assert_eq!(rt; got.as_str(), want, "{old} {new}");
    }
}

/// Cases of one letter each; a `*` is a default.
fn cases_of(alloc: Global, texts: &str) -> Option<Cases> {
    let mut cases = Cases::new(alloc);
    for c in texts.chars() {
        let case = if c == '*' {
            None
        } else {
            let mut text = Txt::new(alloc);
            text.push(c).ok()?;
            Some(text)
        };
        cases.push(case).ok()?;
    }
    Some(cases)
}

fn shown(alloc: Global, value: &str, texts: &str) -> Option<Txt> {
    let value = Txt::from_str(alloc, value).ok()?;
    let all = cases_of(alloc, texts)?;
    if all.as_slice().len() > 1_000 {
        return None;
    }
    let mut out = Txt::new(alloc);
    write_numbers(&mut out, &cases(alloc, &value, &all).ok()?).ok()?;
    Some(out)
}

const CASES: [(&str, &str, &str); 8] = [
    ("a", "", ""),
    ("a", "a", "0 "),
    ("a", "ab*a", "0 3 "),
    ("x", "ab*a*", "2 4 "),
    ("x", "ab", ""),
    ("a", "*a", "1 "),
    ("", "*", "0 "),
    ("ab", "a*b", "1 "),
];

#[test]
fn a_switch_shows_all_matching_cases_else_its_defaults(rt: HostRuntime) {
    for (value, texts, want) in CASES {
        let Some(got) = shown(rt.alloc(), value, texts) else {
            panic!(rt; "memory");
        };
        assert_eq!(rt; got.as_str(), want, "{value} {texts}");
    }
}
