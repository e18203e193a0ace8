// Reads texts from standard input, one to a line, and prints what each comes to. A line `rules TEXT` gives a rule text,
// a line `term TEXT` a start term over the names of the last rule text that was accepted.
#![tactic(auto)]

mod escapes;

use escapes::unescaped;
use printing::NamedTerm;
use std::io;
use terms::Codes;
use texts::{NamedSystem, read_rules, read_term};

fn print_system(rt: &HostRuntime, text: &NamedSystem) -> io::Result<()> {
    let rules = text.system.rules().len();
    let symbols = text.names.signature().arities().len();
    print!(rt; "rules {rules} symbols {symbols}:")?;
    for arity in text.names.signature().arities() {
        print!(rt; " {arity}")?;
    }
    println!(rt; "")
}

// The codes of each rule, to show how names were numbered.
fn print_rules(rt: &HostRuntime, text: &NamedSystem) -> io::Result<()> {
    for rule in text.system.rules() {
        println!(rt; " {} ->{}", Codes(rule.left()), Codes(rule.right()))?;
    }
    Ok(())
}

fn answer_rules(rt: &HostRuntime, text: &[u8], last: &mut Option<NamedSystem>) -> io::Result<()> {
    match read_rules(text) {
        Ok(named) => {
            print_system(rt, &named)?;
            print_rules(rt, &named)?;
            *last = Some(named);
            Ok(())
        }
        Err(fault) => println!(rt; "{fault}"),
    }
}

fn answer_term(rt: &HostRuntime, text: &[u8], last: &Option<NamedSystem>) -> io::Result<()> {
    let Some(named) = last else {
        return println!(rt; "no rules");
    };
    match read_term(&named.names, text) {
        Ok(codes) => {
            let term = NamedTerm {
                names: &named.names,
                codes: codes.as_slice(),
            };
            println!(rt; "{term}")
        }
        Err(fault) => println!(rt; "{fault}"),
    }
}

fn main(rt: HostRuntime) -> io::Result<()> {
    let mut last = None;
    for line in rt.lines(rt.alloc()) {
        let line = line?;
        if let Some(text) = line.as_str().strip_prefix("rules ") {
            answer_rules(&rt, &unescaped(rt.alloc(), text.as_bytes())?, &mut last)?;
        } else if let Some(text) = line.as_str().strip_prefix("term ") {
            answer_term(&rt, &unescaped(rt.alloc(), text.as_bytes())?, &last)?;
        }
    }
    Ok(())
}
