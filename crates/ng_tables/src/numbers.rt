//! How a number is written.
use crate::rows::column;
use ng_base::txt::Txt;

/// A text, a number, and whether the text is how the number is written.
const WRITTEN: &str = "0→0→yes
→0→no
-→0→no
-0→0→no
00→0→no
1→1→yes
+1→1→no
01→1→no
-1→-1→yes
1→-1→no
-→-1→no
→-1→no
10→10→yes
1→10→no
0→10→no
010→10→no
100→10→no
9223372036854775807→9223372036854775807→yes
9223372036854775808→9223372036854775807→no
-9223372036854775808→-9223372036854775808→yes
9223372036854775808→-9223372036854775808→no";

#[test]
fn number_is_known_by_how_it_is_written(rt: HostRuntime) {
    for row in WRITTEN.split('\n') {
        let (text, rest) = column(row);
        let (number, want) = column(rest);
        let Ok(n) = number.parse::<i64>() else {
            panic!(rt; "{number} is no number");
        };
        let Ok(written) = Txt::from_str(rt.alloc(), text) else {
            panic!(rt; "memory");
        };
        assert_eq!(rt; written.is_number(n), want == "yes", "{text} {n}");
    }
}
