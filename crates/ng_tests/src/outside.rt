//! The edge: real files and a writer of std, and the shelf and sink that never fail.
use ng_base::fault::ShelfFault;
use ng_base::in_memory::{Kept, SureShelf, SureSink};
use ng_base::outside::{Shelf, Sink, put_all};
use ng_base::real::{FileShelf, StdoutSink};
use ng_base::txt::Txt;
use std::fs;

#[test]
fn files_are_fetched_whole_or_not_at_all(rt: HostRuntime) {
    let alloc = rt.alloc();
    fs::write(&rt, "short.txt", "Hi {{name}}").expect(&rt, "a file is written");
    let mut shelf = FileShelf::new(alloc, &rt);
    let mut bytes = Vec::new(alloc);
    assert!(rt; shelf.fetch("short.txt", &mut bytes).is_ok());
    assert_eq!(rt; bytes.as_slice(), "Hi {{name}}".as_bytes());
    assert!(rt; matches!(shelf.fetch("none.txt", &mut bytes), Err(ShelfFault::Failed)));
    assert_eq!(rt; bytes.len(), 11);
}

#[test]
fn a_sure_shelf_has_the_empty_file_under_other_names(rt: HostRuntime) {
    let alloc = rt.alloc();
    let mut files = Vec::new(alloc);
    let mut kept = Vec::new(alloc);
    kept.extend_from_slice(b"here").expect(&rt, "memory");
    files
        .push(Kept {
            name: Txt::from_str(alloc, "file").expect(&rt, "memory"),
            bytes: kept,
        })
        .expect(&rt, "memory");
    let mut shelf = SureShelf::new(files);
    let mut bytes = Vec::new(alloc);
    assert!(rt; shelf.fetch("none", &mut bytes).is_ok());
    assert!(rt; bytes.is_empty());
    assert!(rt; shelf.fetch("file", &mut bytes).is_ok());
    assert_eq!(rt; bytes.as_slice(), b"here".as_slice());
}

#[test]
fn sinks_take_whole_pieces(rt: HostRuntime) {
    let alloc = rt.alloc();
    let file = fs::create(&rt, "taken.txt").expect(&rt, "a file is made");
    let mut sink = StdoutSink::new(file);
    assert!(rt; put_all(&mut sink, b"one piece, ").is_ok());
    assert!(rt; matches!(sink.put(b""), Ok(0)));
    assert!(rt; put_all(&mut sink, b"and another").is_ok());
    let mut shelf = FileShelf::new(alloc, &rt);
    let mut bytes = Vec::new(alloc);
    assert!(rt; shelf.fetch("taken.txt", &mut bytes).is_ok());
    assert_eq!(rt; bytes.as_slice(), "one piece, and another".as_bytes());
    let mut sure = SureSink::new();
    assert!(rt; put_all(&mut sure, b"piece").is_ok());
    assert_eq!(rt; sure.pieces(), 1);
}
