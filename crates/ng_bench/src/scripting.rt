//! Reading scripts.
use ng_script::read;
use std::alloc::Global;

/// Ten commands of a session.
const COMMANDS: &str =
    "// a row\nclick #add\ntype #q \"pear\"\ncheck /0/2/1 true\neval rows[3].n = rows[3].n + 1\nat #d x = 3\nemit root saved [1, {\"a\": true}]\nfire keydown #q {\"key\": \"Enter\"}\nprobe rows.length | json:0\nasync total = total + 1\ndigest\n";

/// A script of so many commands.
fn script(alloc: Global, size: u64) -> Option<String> {
    let mut text = String::new(alloc);
    for _ in 0..size / 10 {
        text.push_str(COMMANDS).ok()?;
    }
    Some(text)
}

/// How many commands were read.
pub(crate) fn commands(alloc: Global, size: u64) -> Option<u64> {
    let text = script(alloc, size)?;
    let commands = read(alloc, text.as_bytes()).ok()?;
    Some(commands.len() as u64)
}
