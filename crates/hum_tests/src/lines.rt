//! The command line: what its words ask for, and which lines are refused.
use crate::compared::{holds, same, same_bytes};
use hum_program::{LineFault, Side, read_line};
use std::process::Abort;

fn words(rt: &(impl Abort + AllocGlobal), texts: &[&'static str]) -> Vec<String> {
    let mut words = Vec::new(rt.alloc());
    for text in texts {
        let word = String::from_str(rt.alloc(), text).expect(rt, "memory");
        words.push(word).expect(rt, "memory");
    }
    words
}

// The words ask for links of this size, for this order, and for this file, or none.
fn asks(
    rt: &(impl Abort + AllocGlobal),
    texts: &[&'static str],
    link: u16,
    is_left: bool,
    file: &'static str,
) {
    let words = words(rt, texts);
    let Ok(choice) = read_line(rt.alloc(), &words) else {
        panic!(rt; "refused");
    };
    same(rt, choice.link, link, "the link");
    holds(
        rt,
        matches!(choice.order, Side::Left) == is_left,
        "the order",
    );
    same_bytes(
        rt,
        choice.file.unwrap_or("").as_bytes(),
        file.as_bytes(),
        "the file",
    );
}

fn is_refused(rt: &(impl Abort + AllocGlobal), texts: &[&'static str]) {
    let words = words(rt, texts);
    holds(
        rt,
        matches!(read_line(rt.alloc(), &words), Err(LineFault::Usage)),
        "refused",
    );
}

#[test]
fn words_are_read(rt: HostRuntime) {
    asks(&rt, &[], 16, true, "");
    asks(&rt, &["humpipe"], 16, true, "");
    asks(&rt, &["humpipe", "x"], 16, true, "x");
    asks(&rt, &["humpipe", "--link", "1"], 1, true, "");
    asks(&rt, &["humpipe", "--link", "4096", "x"], 4_096, true, "x");
    asks(&rt, &["humpipe", "--order", "left"], 16, true, "");
    asks(&rt, &["humpipe", "--order", "right", "x"], 16, false, "x");
    asks(&rt, &["humpipe", "x", "--link=7"], 7, true, "x");
    asks(
        &rt,
        &["humpipe", "--order=right", "--link", "+007"],
        7,
        false,
        "",
    );
    asks(
        &rt,
        &["humpipe", "--link", "8", "--", "--order"],
        8,
        true,
        "--order",
    );
}

#[test]
fn other_words_are_refused(rt: HostRuntime) {
    is_refused(&rt, &["humpipe", "--link", "0"]);
    is_refused(&rt, &["humpipe", "--link", "4097"]);
    is_refused(&rt, &["humpipe", "--link"]);
    is_refused(&rt, &["humpipe", "--order", "up"]);
    is_refused(&rt, &["humpipe", "--help"]);
    is_refused(&rt, &["humpipe", "x", "y"]);
}
