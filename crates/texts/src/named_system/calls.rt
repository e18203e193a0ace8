// Rule texts and start terms, read to their ends.
ghost use Rattle.std.specs.Prelude.{◌≡◌, T};
ghost use Rattle.bounded.specs.Items.{items};
ghost use Rattle.terms.specs.Models.{arities_of, all_rules};
ghost use Rattle.terms.specs.Systems.{system_of};
ghost use Rattle.terms.specs.Replies.{viewed};
ghost use Rattle.vocabulary.specs.Naming.{naming_of};
ghost use Rattle.reading.specs.Documents.{rule_text, start_term};
ghost use Rattle.reading.specs.Exactly.{TextExactly, TermTextExactly};
ghost use Rattle.texts.specs.Parts.{rules_of};
ghost use Rattle.texts.specs.Documents.{document_of};
ghost use Rattle.texts.specs.Systems.{Assembles, said_of, rules_reply, term_reply, Stands, TermCodes};

use crate::document::Document;
use crate::fault::{Source, TextFault};
use crate::named_system::NamedSystem;
use crate::parts::RuleCodes;
use crate::reader::read;
use bounded::ArrayVec;
use terms::{Rule, Signature, System};
use vocabulary::Names;

// A system over its signature, from the sides of its rules.
fn system_from(signature: &Signature, codes: &ArrayVec<RuleCodes, 32>) -> System
    requires { T (all_rules (arities_of signature.now) (rules_of (items codes.now))) }
    ensures { system_of result ≡ record { arities = arities_of signature.now; rules = rules_of (items codes.now) } }
{
    let mut rules: ArrayVec<Rule, 32> = ArrayVec::new(Rule::unused());
    for sides in codes.as_slice() {
        let rule = Rule::new(sides.left.as_slice(), sides.right.as_slice()).unwrap();
        rules.push(rule).unwrap();
    }
    System::new(*signature, rules.as_slice()).unwrap()
}

// What a text that was accepted says.
fn assemble(document: &Document) -> NamedSystem
    requires { Assembles (document_of document.now) }
    ensures { said_of result ≡ record { names = (document_of document.now).names; rules = (document_of document.now).rules } }
{
    let names = Names::new(document.parts.vocabulary).unwrap();
    NamedSystem {
        system: system_from(names.signature(), &document.parts.rules),
        names,
    }
}

// The system that a rule text spells.
#[tactic(auto, using(reading::proofs::Texts::text_exactly, reading::proofs::Standing::refusal_stands, crate::proofs::Answering::assembles))]
pub fn read_rules(text: &[u8]) -> Result<NamedSystem, TextFault>
    ensures value { viewed said_of result ≡ rules_reply text.now }
    ensures means { TextExactly text.now }
    ensures stands { Stands rule_text text.now result }
{
    let mut document = Document::rule_text();
    read(&mut document, Source::Rules, text)?;
    Ok(assemble(&document))
}

// The codes of the start term that a text spells over names.
#[tactic(auto, using(crate::proofs::Answering::term_law, reading::proofs::Standing::refusal_stands, crate::proofs::Answering::term_read))]
pub fn read_term(names: &Names, text: &[u8]) -> Result<ArrayVec<u16, 1024>, TextFault>
    ensures value { viewed items result ≡ term_reply (naming_of names.now).vocabulary text.now }
    ensures means { TermTextExactly (naming_of names.now).vocabulary text.now }
    ensures stands { Stands (start_term (naming_of names.now).vocabulary) text.now result }
    ensures term { TermCodes (naming_of names.now).signature (viewed items result) }
{
    let mut document = Document::start_term(*names.vocabulary());
    read(&mut document, Source::Term, text)?;
    Ok(document.parts.side.codes)
}
