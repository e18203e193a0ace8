// Reading, record by record.
ghost use Rattle.std.specs.Prelude.{◌≡◌, [], ◌++◌, ◌+◌, option_to_list, ◌<◌, ◌≤◌, IfOk, OnOk, length};
ghost use Rattle.bounded.specs.Items.{items};
ghost use Rattle.terms.specs.Models.{arities_of};
ghost use Rattle.terms.specs.Replies.{viewed};
ghost use Rattle.encodings.specs.Frames.{word_at};
ghost use Rattle.encodings.specs.Bodies.{Proper, frame_body};
ghost use Rattle.encodings.specs.Reading.{Awaited.end, awaiting, move, read};
ghost use Rattle.certificates.specs.Bodies.{body_of};
ghost use Rattle.certificates.specs.Parts.{kept_part};
ghost use Rattle.certificates.specs.Certificates.{parts_of};
ghost use Rattle.certificates.specs.Readers.{awaited_of, is_open, frames_of, frame_of, recorded, first, move_of, kept_move, progress_of, fresh, advanced, stepped, finished, Roomy, HasRoom};

use crate::body::Body;
use crate::certificate::Certificate;
use crate::reader::{Awaits, Reader};
use algebras::Empty;
use bounded::ArrayVec;
use encodings::{CertificateFault, RecordFlaw};
use piles::Part;
use terms::Signature;

// Kinds of records.
const HEADER: u16 = 1;

const LINEAR: u16 = 16;

const MATRIX: u16 = 17;

// A record in its place, with the offset of its end.
#[derive(Clone, Copy)]
struct Record<'a> {
    kind: u16,
    body: Body<'a>,
    end: usize,
}

// What a record gives, and what is awaited behind it.
#[derive(Clone, Copy)]
struct Move {
    part: Option<Part>,
    next: Awaits,
}

impl Awaits {
    // So many parts.
    fn parts(number: u8) -> Awaits
        ensures { awaited_of result ≡ awaiting number }
    {
        match number {
            0 => Awaits::End,
            _ => Awaits::Part(number - 1),
        }
    }
}

impl<'a> Reader<'a> {
    pub fn new(signature: &Signature, bytes: &'a [u8]) -> Reader<'a>
        ensures { progress_of result ≡ fresh (arities_of signature.now) bytes.now }
    {
        Reader {
            signature: *signature,
            bytes,
            at: 0,
            awaits: Awaits::Header,
            parts: ArrayVec::new(Part::Missing(Empty {})),
        }
    }

    // 16 bits, the low byte first.
    fn word(&self, at: usize) -> u16
        requires { at + 1 < length self.now.bytes.now }
        ensures { result ≡ word_at self.now.bytes.now at }
    {
        u16::from_le_bytes([self.bytes[at], self.bytes[at + 1]])
    }

    // The record that starts here.
    fn record(&self) -> Result<Record<'a>, CertificateFault>
        ensures value { recorded self.now.bytes.now result ≡ first (frames_of self.now) }
        ensures within { IfOk result (λ found. found.end ≤ length self.now.bytes.now) }
        ensures body { IfOk result (λ found. body_of found.body ≡ frame_body (frame_of found)) }
        ensures proper { IfOk result (λ found. Proper (body_of found.body)) }
    {
        let start = self.at;
        let cut = RecordFlaw::CutShort.at(start);
        let left = self.bytes.len() - start;
        if left < 4 {
            return Err(cut);
        }
        let length = self.word(start) as usize;
        let kind = self.word(start + 2);
        if left - 4 < length {
            return Err(cut);
        }
        let end = start + 4 + length;
        let body = Body {
            start,
            at: start + 4,
            bytes: &self.bytes[..end],
        };
        Ok(Record { kind, body, end })
    }

    // What a record gives, by what is awaited and its kind together.
    fn judge(&self, found: &Record<'a>) -> Result<Move, CertificateFault>
        requires body { body_of found.now.body ≡ frame_body (frame_of found.now) }
        requires proper { Proper (body_of found.now.body) }
        ensures { viewed move_of result ≡ viewed (kept_move (arities_of self.now.signature)) (move (arities_of self.now.signature) (awaited_of self.now.awaits) (frame_of found.now)) }
    {
        let body = found.body;
        match (self.awaits, found.kind) {
            (Awaits::Header, HEADER) => {
                let parts = body.header(&self.signature)?;
                Ok(Move {
                    part: None,
                    next: Awaits::parts(parts),
                })
            }
            (Awaits::Part(behind), LINEAR) => {
                let part = body.linear_part(&self.signature)?;
                Ok(Move {
                    part: Some(part),
                    next: Awaits::parts(behind),
                })
            }
            (Awaits::Part(behind), MATRIX) => {
                let part = body.matrix_part(&self.signature)?;
                Ok(Move {
                    part: Some(part),
                    next: Awaits::parts(behind),
                })
            }
            (Awaits::Header | Awaits::Part(_), _) => Err(RecordFlaw::WrongKind.at(body.start)),
            (Awaits::End, _) => Err(RecordFlaw::LeftOver.at(body.start)),
        }
    }

    // A part more, if there is one.
    fn keep(&mut self, part: Option<Part>)
        requires { length (items self.old.parts) + length (option_to_list part) ≤ 4 }
        ensures parts { items self.new.parts ≡ items self.old.parts ++ option_to_list part }
        ensures same { (self.new.signature ≡ self.old.signature) × (self.new.bytes ≡ self.old.bytes) × (self.new.at ≡ self.old.at) × (self.new.awaits ≡ self.old.awaits) }
    {
        if let Some(part) = part {
            let kept = self.parts.push(part).is_ok();
            prove!(kept);
        }
    }

    // Whether a record is awaited.
    pub fn is_open(&self) -> bool
        ensures { result ≡ is_open (awaited_of self.now.awaits) }
    {
        !matches!(self.awaits, Awaits::End)
    }

    // Reads one record.
    pub fn step(&mut self) -> Result<(), CertificateFault>
        requires { HasRoom self.old }
        ensures value { stepped result (progress_of self.new) ≡ advanced (progress_of self.old) }
        ensures room { OnOk result (HasRoom self.new) }
    {
        let record = self.record()?;
        let found = self.judge(&record)?;
        self.keep(found.part);
        self.awaits = found.next;
        self.at = record.end;
        Ok(())
    }

    // Nothing stands behind the last part.
    pub fn end(&self) -> Result<(), CertificateFault>
        ensures { viewed (λ _. []) result ≡ read (arities_of self.now.signature) end (frames_of self.now) }
    {
        if self.at < self.bytes.len() {
            return Err(RecordFlaw::LeftOver.at(self.at));
        }
        Ok(())
    }

    // Reads all records, to the end.
    pub fn read_all(mut self) -> Result<Certificate, CertificateFault>
        requires { HasRoom self }
        ensures { viewed parts_of result ≡ finished (progress_of self.entry) }
    {
        while self.is_open() {
            self.step()?;
        }
        self.end()?;
        Ok(Certificate { parts: self.parts })
    }
}
