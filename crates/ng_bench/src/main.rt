//! Workloads of single crates, for `bench/crates.py`, which times them.
//!
//! `ng_bench WORKLOAD SIZE` does one workload and prints what it counted; nothing else is measured here. The
//! workloads:
//!
//! - `parse` lexes and parses so many programs of a thousand tokens;
//! - `wide` compares an array of so many numbers with its Deep snapshot, a hundred times; `deep` compares a record 90
//!   levels deep with its own, so many times;
//! - `digest` runs a digest over so many watchers that is clean, behind one in which each fired;
//! - `front`, `back` and `middle` walk so many listeners of one scope and name, and then take them out from there,
//!   one after another, with the walk open; `drop` drops so many scopes, of which each tenth has a listener;
//! - `scopes` makes so many scopes, and meets them in the order of their paths;
//! - `choice` evaluates an expression with members, sums and a choice so many times, and `order` a hundred times an `orderBy`
//!   and a `limitTo` over so many objects;
//! - `watches` tests so many clean watchers one after another;
//! - `reversed` plans a repeat whose so many rows come in reverse, and `tenths` one of which each tenth row is gone;
//! - `script` reads a script of so many commands;
//! - `texts` builds a document of so many paragraphs and writes the text of each, and `groups` inserts a thousand groups in the middle of
//!   so many at an anchor.
//!
//! Those of actions are ng_bench_acts'. It decides nothing and no other crate stands on it.
#![tactic(auto)]

mod digests;
mod documents;
mod listening;
mod planning;
mod scoping;
mod scripting;
mod snapping;
mod syntax;
mod viewing;
mod watching;

use listening::Side;
use planning::Order;
use std::alloc::Global;
use std::{env, io};

/// A workload of a size, and what it counted.
fn counted(alloc: Global, workload: &str, size: u64) -> Option<u64> {
    match workload {
        "parse" => syntax::parsed(alloc, size),
        "wide" => snapping::wide(alloc, size),
        "deep" => snapping::deep(alloc, size),
        "digest" => digests::tested(alloc, size),
        "front" => listening::walked(alloc, Side::Front, size),
        "back" => listening::walked(alloc, Side::Back, size),
        "middle" => listening::walked(alloc, Side::Middle, size),
        "drop" => listening::dropped(alloc, size),
        "scopes" => scoping::walked(alloc, size),
        "choice" => viewing::chosen(alloc, size),
        "order" => viewing::sorted(alloc, size),
        "watches" => watching::tested(alloc, size),
        "reversed" => planning::planned(alloc, Order::Falling, size),
        "tenths" => planning::planned(alloc, Order::WithoutTenths, size),
        "script" => scripting::commands(alloc, size),
        "texts" => documents::written(alloc, size),
        "groups" => documents::grouped(alloc, size),
        _ => None,
    }
}

fn main(rt: HostRuntime) -> io::Result<()> {
    let alloc = rt.alloc();
    let mut words = env::args(&rt)?.skip(1);
    let workload = words.next();
    let size = words.next();
    if let (Some(workload), Some(size)) = (workload, size) {
        let size = size.as_str().parse::<u64>().unwrap_or(0);
        match counted(alloc, workload.as_str(), size) {
            Some(count) => println!(rt; "{} {} {}", workload.as_str(), size, count)?,
            None => println!(rt; "{} {} failed", workload.as_str(), size)?,
        }
    }
    Ok(())
}
