// Signatures, rules, systems and terms.
use crate::texts::{say_made, say_term};
use std::io;
use terms::{Malformed, Rule, Signature, System};

pub fn try_signatures(rt: &HostRuntime) -> io::Result<()> {
    say_made(rt, "no symbols", Signature::new(&[]))?;
    say_made(rt, "32 symbols", Signature::new(&[0; 32]))?;
    say_made(rt, "33 symbols", Signature::new(&[0; 33]))?;
    say_made(rt, "arity 4", Signature::new(&[0, 4]))?;
    say_made(rt, "arity 5", Signature::new(&[0, 5]))?;
    say_made(rt, "arity 255", Signature::new(&[255]))
}

pub fn try_rules(rt: &HostRuntime) -> io::Result<()> {
    say_made(rt, "rule z -> z", Rule::new(&[1], &[1]))?;
    say_made(rt, "empty left side", Rule::new(&[], &[1]))?;
    say_made(rt, "empty right side", Rule::new(&[1], &[]))?;
    say_made(rt, "left side a variable", Rule::new(&[32768], &[1]))?;
    say_made(
        rt,
        "right variable absent",
        Rule::new(&[2, 32768], &[32769]),
    )?;
    say_made(
        rt,
        "right variable present",
        Rule::new(&[2, 32769], &[32769]),
    )?;
    say_made(rt, "variable number 7", Rule::new(&[2, 32775], &[1]))?;
    say_made(rt, "variable number 8", Rule::new(&[2, 32776], &[1]))?;
    say_made(rt, "left side of 32 codes", Rule::new(&[2; 32], &[1]))?;
    say_made(rt, "left side of 33 codes", Rule::new(&[2; 33], &[1]))?;
    say_made(rt, "right side of 32 codes", Rule::new(&[1], &[2; 32]))?;
    say_made(rt, "right side of 33 codes", Rule::new(&[1], &[2; 33]))
}

// add, z and s.
fn signature() -> Result<Signature, Malformed> {
    Signature::new(&[2, 0, 1])
}

// A system of addition's symbols with so many times the rule left -> z.
fn system(left: &[u16], count: usize) -> Result<System, Malformed> {
    let rules = [Rule::new(left, &[1])?; 40];
    System::new(signature()?, rules.get(..count).ok_or(Malformed::System)?)
}

pub fn try_systems(rt: &HostRuntime) -> io::Result<()> {
    say_made(rt, "no rules", system(&[1], 0))?;
    say_made(rt, "32 rules", system(&[1], 32))?;
    say_made(rt, "33 rules", system(&[1], 33))?;
    say_made(rt, "symbol past the signature", system(&[3], 1))?;
    say_made(rt, "too few arguments", system(&[0, 1], 1))?;
    say_made(rt, "too many arguments", system(&[2, 1, 1], 1))
}

fn is_term(codes: &[u16]) -> bool {
    signature().is_ok_and(|signature| signature.is_term(codes))
}

pub fn try_terms(rt: &HostRuntime) -> io::Result<()> {
    say_term(rt, "no codes are a term", is_term(&[]))?;
    say_term(rt, "a lone variable is a term", is_term(&[32768]))?;
    say_term(rt, "variable number 7 is a term", is_term(&[32775]))?;
    say_term(rt, "variable number 8 is a term", is_term(&[32776]))?;
    say_term(rt, "code 65535 is a term", is_term(&[65535]))?;
    say_term(rt, "symbol 3 is a term", is_term(&[3]))?;
    say_term(rt, "code 32767 is a term", is_term(&[32767]))?;
    say_term(rt, "add(z, z) is a term", is_term(&[0, 1, 1]))?;
    say_term(rt, "add(z is a term", is_term(&[0, 1]))?;
    say_term(rt, "z z is a term", is_term(&[1, 1]))?;
    let mut long = [2; 1025];
    long[1023] = 1;
    say_term(rt, "1024 codes are a term", is_term(&long[..1024]))?;
    long[1023] = 2;
    long[1024] = 1;
    say_term(rt, "1025 codes are a term", is_term(&long))
}
