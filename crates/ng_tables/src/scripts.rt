//! What a script says that no run shows: commands of controls, lines of commands, and numbers of paths.
use ng_base::path::Target;
use ng_script::{Commands, ScopeOf, What, read};
use std::alloc::Global;

/// A script, the line of its last command, and what that does.
const COMMANDS: [(&str, u64, &str); 6] = [
    ("\n// jump #b", 0, "none"),
    ("digest \r\n\n//\n digest", 4, "Digest"),
    ("type #q \"a b\"", 1, "Typed"),
    ("type #q \"\\u00e9\\n\"", 1, "Typed"),
    ("check #c true", 1, "Check"),
    ("check /3 false", 1, "Check"),
];

fn name_of(what: &What) -> &'static str {
    match what {
        What::Typed { .. } => "Typed",
        What::Check { .. } => "Check",
        What::Digest => "Digest",
        _ => "another",
    }
}

fn last_of(commands: &Commands) -> (u64, &'static str) {
    match commands.as_slice().last() {
        Some(command) => (command.line, name_of(&command.what)),
        None => (0, "none"),
    }
}

fn answer(alloc: Global, script: &str) -> (u64, &'static str) {
    match read(alloc, script.as_bytes()) {
        Ok(commands) => last_of(&commands),
        Err(fault) => (fault.line, "refused"),
    }
}

#[test]
fn commands_are_read_with_their_lines(rt: HostRuntime) {
    for (script, line, wanted) in COMMANDS {
        let (at, came) = answer(rt.alloc(), script);
        assert!(rt; at == line && came == wanted, "at {script}");
    }
}

/// The numbers of the path that a script's last command is aimed at.
fn path_of(commands: &Commands) -> &[u32] {
    match commands.as_slice().last() {
        Some(command) => match &command.what {
            What::Click(Target::Path(path)) => path.as_slice(),
            What::Destroy(ScopeOf::Node(Target::Path(path))) => path.as_slice(),
            _ => &[],
        },
        None => &[],
    }
}

/// A script, and the path of its last command.
const PATHS: [(&str, &[u32]); 4] = [
    ("click /0", &[0]),
    ("click /0/2/1", &[0, 2, 1]),
    ("click /000/007/4294967295", &[0, 7, 4294967295]),
    ("destroy /10/0", &[10, 0]),
];

#[test]
fn a_path_has_its_numbers_in_order(rt: HostRuntime) {
    for (script, path) in PATHS {
        match read(rt.alloc(), script.as_bytes()) {
            Ok(commands) => assert!(rt; path_of(&commands) == path, "at {script}"),
            Err(fault) => panic!(rt; "{fault} at {script}"),
        }
    }
}
