// Terms as text.
ghost use Rattle.std.specs.Prelude.{◌≡◌, ◌≤◌, ◌++◌, length, drop, IfOk, nat_le};
ghost use Rattle.vocabulary.specs.Naming.{naming_of};
ghost use Rattle.printing.specs.Texts.{text};
ghost use Rattle.printing.specs.Spellers.{words_left};
ghost use Rattle.printing.specs.Replies.{print_reply, printed_memory};
ghost use Rattle.printing.specs.Laws.{PrintedExactly, Suffices};

use crate::MOST_TEXT;
use crate::fault::PrintFault;
use crate::named_term::NamedTerm;
use crate::speller::Speller;
use vocabulary::Names;

// Whether the text to come has at most `room` bytes.
fn fits(mut speller: Speller, room: usize) -> bool
    ensures { result ≡ nat_le (length (text (words_left speller.entry))) room }
{
    speller
        .try_fold(room, |left, piece| left.checked_sub(piece.bytes().len()))
        .is_some()
}

// Writes the text to come to the front of memory that has room for it.
fn write(speller: Speller, out: &mut [u8]) -> usize
    requires { length (text (words_left speller)) ≤ length out.old }
    ensures len { result ≡ length (text (words_left speller.entry)) }
    ensures after { out.new ≡ text (words_left speller.entry) ++ drop result out.old }
{
    let mut at = 0;
    for piece in speller {
        let bytes = piece.bytes();
        let end = at + bytes.len();
        out[at..end].copy_from_slice(bytes);
        at = end;
    }
    at
}

// Writes the text of codes with names, without blanks, and answers its length; nothing beyond it is touched.
#[tactic(auto, using(crate::proofs::Exactly::no_term, crate::proofs::Exactly::too_short, crate::proofs::Exactly::scarce, crate::proofs::Exactly::written))]
pub fn print_term(names: &Names, codes: &[u16], out: &mut [u8]) -> Result<usize, PrintFault>
    ensures value { result ≡ print_reply (naming_of names.now) codes.now out.old }
    ensures after { out.new ≡ printed_memory (naming_of names.now) codes.now out.old }
    ensures within { IfOk result (λ n. n ≤ length out.old) }
    ensures enough { Suffices MOST_TEXT out.old result }
    ensures means { PrintedExactly (naming_of names.now).vocabulary codes.now out.old result out.new }
{
    let term = NamedTerm { names, codes };
    let speller = Speller::new(term).ok_or(PrintFault::NoTerm)?;
    // Measured before anything is written, since a refusal writes nothing.
    if !fits(speller, out.len()) {
        return Err(PrintFault::TooShort);
    }
    Ok(write(speller, out))
}
