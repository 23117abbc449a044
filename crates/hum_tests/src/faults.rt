//! What faults print: the code of the rule that is broken, and what it stands for.
use crate::compared::{holds, same_bytes};
use hum_frac::FracFault;
use hum_kern::KernFault;
use hum_path::PathFault;
use hum_pitch::PitchFault;
use hum_record::RecordFault;
use hum_stage::{Refusal, Rule};
use hum_text::TextFault;
use std::fmt::Display;
use std::process::Abort;

// The text of each fault begins with its code and a colon.
fn check_codes<F: Display>(rt: &(impl Abort + AllocGlobal), faults: &[(F, &'static str)]) {
    for (fault, code) in faults {
        let text = format!(in rt.alloc(); "{fault}").expect(rt, "memory");
        let rest = text.strip_prefix(*code).unwrap_or("");
        holds(rt, rest.starts_with(": "), *code);
    }
}

// A fault prints this text.
fn check_text(rt: &(impl Abort + AllocGlobal), fault: impl Display + Drop, want: &'static str) {
    let text = format!(in rt.alloc(); "{fault}").expect(rt, "memory");
    same_bytes(rt, text.as_bytes(), want.as_bytes(), want);
}

#[test]
fn faults_print_their_code(rt: HostRuntime) {
    check_codes(&rt, &[(FracFault::F1, "F1")]);
    let kern = [
        (KernFault::K1, "K1"),
        (KernFault::K2, "K2"),
        (KernFault::K3, "K3"),
    ];
    check_codes(&rt, &kern);
    check_codes(&rt, &[(PitchFault::TR1, "TR1"), (PitchFault::TR2, "TR2")]);
    check_codes(&rt, &[(TextFault::S2, "S2")]);
    check_codes(&rt, &[(RecordFault::S8, "S8"), (RecordFault::L1, "L1")]);
    check_codes(&rt, &[(PathFault::P10, "P10")]);
}

#[test]
fn faults_print_their_rule(rt: HostRuntime) {
    check_text(&rt, TextFault::S1, "S1: an empty line");
    check_text(&rt, RecordFault::S4, "S4: an empty token");
    check_text(&rt, PathFault::P3, "P3: a *v without a *v beside it");
    check_text(&rt, PathFault::Memory, "out of memory");
}

#[test]
fn refusals_print_the_code_alone(rt: HostRuntime) {
    check_text(&rt, Refusal::from(PathFault::P3), "P3");
    check_text(&rt, Refusal::from(RecordFault::L1), "L1");
    check_text(&rt, Refusal::from(RecordFault::Memory), "out of memory");
    check_text(&rt, Refusal::Rule(Rule::H1), "H1");
}
