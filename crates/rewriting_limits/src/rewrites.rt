// Places, matches and rewrites.
use crate::texts::{say_answer, say_end};
use rewriting::{RewriteFault, Subject, matches};
use std::io;
use terms::{Malformed, Rule, Signature, System};

// add, z and s.
fn signature() -> Result<Signature, Malformed> {
    Signature::new(&[2, 0, 1])
}

fn end_at(codes: &[u16], at: usize) -> Option<usize> {
    signature().ok()?.subterm_end(codes, at)
}

pub fn try_places(rt: &HostRuntime) -> io::Result<()> {
    say_end(rt, "end of add(s(z), z) at 0", end_at(&[0, 2, 1, 1], 0))?;
    say_end(rt, "end of add(s(z), z) at 1", end_at(&[0, 2, 1, 1], 1))?;
    say_end(rt, "end of add(s(z), z) at 3", end_at(&[0, 2, 1, 1], 3))?;
    say_end(rt, "end of add(s(z), z) at 4", end_at(&[0, 2, 1, 1], 4))?;
    say_end(rt, "end of no term at 0", end_at(&[0, 2, 1], 0))
}

fn match_at(pattern: &[u16], codes: &[u16], at: usize) -> Result<bool, RewriteFault> {
    matches(&signature()?, pattern, codes, at)
}

pub fn try_matches(rt: &HostRuntime) -> io::Result<()> {
    say_answer(rt, "a matches z", match_at(&[32768], &[1], 0))?;
    say_answer(rt, "z matches a", match_at(&[1], &[32768], 0))?;
    say_answer(
        rt,
        "add(a, a) matches add(b, b)",
        match_at(&[0, 32768, 32768], &[0, 32769, 32769], 0),
    )?;
    say_answer(
        rt,
        "add(a, a) matches add(b, a)",
        match_at(&[0, 32768, 32768], &[0, 32769, 32768], 0),
    )?;
    say_answer(
        rt,
        "s(a) matches add(s(z), z) at 1",
        match_at(&[2, 32768], &[0, 2, 1, 1], 1),
    )?;
    say_answer(
        rt,
        "s(a) matches add(s(z), z) at 4",
        match_at(&[2, 32768], &[0, 2, 1, 1], 4),
    )?;
    say_answer(rt, "s matches z", match_at(&[2], &[1], 0))?;
    say_answer(rt, "z matches s", match_at(&[1], &[2], 0))
}

// The system s(a) -> add(a, a), add(z, b) -> b.
fn doubling() -> Result<System, Malformed> {
    let double = Rule::new(&[2, 32768], &[0, 32768, 32768])?;
    let base = Rule::new(&[0, 1, 32769], &[32769])?;
    System::new(signature()?, &[double, base])
}

fn doubled(codes: &[u16]) -> Result<Subject, Malformed> {
    Subject::new(doubling()?, codes)
}

fn rewrite(codes: &[u16], rule: usize, place: usize) -> Result<&'static str, RewriteFault> {
    let mut subject = doubled(codes)?;
    subject.rewrite(rule, place)?;
    Ok("rewritten")
}

// s over s over .. over z, of `size` codes, doubled at place 0.
fn double(size: usize) -> Result<&'static str, RewriteFault> {
    let mut codes = [2; 1025];
    let term = codes.get_mut(..size).ok_or(RewriteFault::Malformed)?;
    *term.last_mut().ok_or(RewriteFault::Malformed)? = 1;
    rewrite(term, 0, 0)
}

pub fn try_rewrites(rt: &HostRuntime) -> io::Result<()> {
    say_answer(rt, "s(z) by rule 0 at 0", rewrite(&[2, 1], 0, 0))?;
    say_answer(rt, "s(z) by rule 2 at 0", rewrite(&[2, 1], 2, 0))?;
    say_answer(rt, "s(z) by rule 2 at 9", rewrite(&[2, 1], 2, 9))?;
    say_answer(rt, "s(z) by rule 0 at 2", rewrite(&[2, 1], 0, 2))?;
    say_answer(rt, "s(z) by rule 1 at 0", rewrite(&[2, 1], 1, 0))?;
    say_answer(rt, "s over z by rule 0 at 0", rewrite(&[2], 0, 0))?;
    say_answer(rt, "512 codes doubled", double(512))?;
    say_answer(rt, "513 codes doubled", double(513))?;
    say_answer(rt, "1024 codes doubled", double(1024))?;
    say_answer(rt, "1025 codes doubled", double(1025))
}
