// A certificate text with the places of its lines, for readers that go to any line.
ghost use Rattle.std.specs.Prelude.{◌≡◌, ℕ, ◌+◌, ◌-◌, ◌≤◌, ◌↔◌, [], length, slice_index_or, is_some, IsTrue};
ghost use Rattle.std.specs.Prelude.{Err, IfOk};
ghost use Rattle.cert_text.specs.Text.{Certificate, IsTextOf, IsCertificate, IsFormFault};
ghost use Rattle.cert_text.specs.Shape.{form_of};
ghost use Rattle.cert_text.specs.Live.{lines_of, hints_of, live_line, last_user};
ghost use Rattle.cert_text.specs.Reading.{line_start};
ghost use Rattle.cert_text.specs.declared.refused.CertRefused.TheVariants as refusals;

use crate::finding::find;
use crate::joining::form_by;
use crate::marks::{Span, mark_parts, targets_at};
use crate::{CertRefused, Form, Hints, Literals, form};
use ltl_syntax::Kind;
use std::alloc::{AllocError, Global};
use std::marker::Model;
use std::thread::Threads;

/// A certificate text of version 1 or 2. Beside the text, which it borrows, it keeps 24 bytes for each line
/// and 8 for each target. Lines and targets are numbered from 1. Each answer takes the same time for any
/// line, but for `hints`, which looks for the end of the line.
#[derive(Drop)]
pub struct CertView<'t> {
    bytes: &'t [u8],
    form: Form,
    spans: Vec<Span>,
    ends: Vec<u64>,
    targets: Vec<u64>,
}

impl<'t> Model for CertView<'t> {
    ghost use Rattle.cert_text.specs.Text.{Certificate};
    ghost use Rattle.cert_text.specs.Reading.{certificate_in};
    ghost use Rattle.cert_text.specs.View.{IsView};

    ghost Value = { Certificate };

    ghost view = { λ a. certificate_in a.bytes.now };

    ghost invariant = { λ a. IsView a.bytes.now (certificate_in a.bytes.now) a.form a.spans.items
        a.ends.items a.targets.items };
}

impl<'t> CertView<'t> {
    /// Reads a certificate text. The bytes are judged by `form` first, so what it keeps is as large as it
    /// must be from the beginning; then they are gone through line by line.
    pub fn read(alloc: Global, bytes: &'t [u8]) -> Result<CertView<'t>, CertRefused>
        ensures ok { IfOk result (λ view. IsTextOf bytes.now view) }
        ensures form { (b : ℕ) → result ≡ Err (refusals.Form b) → IsFormFault bytes.now b }
    {
        match form(bytes) {
            Ok(said) => Ok(CertView::with_form(alloc, bytes, said)?),
            Err(byte) => Err(CertRefused::Form(byte)),
        }
    }

    /// The same by this number of workers, who share the judging of the bytes.
    pub fn read_by<R: Threads + Sync>(
        rt: &R,
        alloc: Global,
        bytes: &'t [u8],
        workers: u32,
    ) -> Result<CertView<'t>, CertRefused>
        requires some { 1 ≤ workers }
        ensures ok { IfOk result (λ view. IsTextOf bytes.now view) }
        ensures form { (b : ℕ) → result ≡ Err (refusals.Form b) → IsFormFault bytes.now b }
    {
        match form_by(rt, alloc, bytes, workers as usize) {
            Ok(said) => Ok(CertView::with_form(alloc, bytes, said)?),
            Err(refused) => Err(refused),
        }
    }

    /// The view of a text of this form.
    fn with_form(alloc: Global, bytes: &'t [u8], said: Form) -> Result<CertView<'t>, AllocError>
        requires { (c : Certificate) × IsTextOf bytes.now c × (said ≡ form_of c) }
        ensures { IfOk result (λ view. IsTextOf bytes.now view) }
    {
        let mut spans = Vec::with_capacity(alloc, said.lines as usize)?;
        let mut ends = Vec::with_capacity(alloc, said.lines as usize)?;
        let close = mark_parts(bytes, &mut spans, &mut ends)?;
        let targets = targets_at(alloc, bytes, close)?;
        Ok(CertView {
            bytes,
            form: said,
            spans,
            ends,
            targets,
        })
    }

    /// It does nothing: its clause says what every view keeps to.
    pub fn invariant(&self)
        ensures { IsCertificate self.now }
    {
        let _ = &self.form;
    }

    /// The version of the text, 1 or 2.
    pub fn version(&self) -> u32
        ensures { result ≡ self.now.version }
    {
        self.form.version
    }

    /// The kind in the header.
    pub fn kind(&self) -> Kind
        ensures { result ≡ self.now.kind }
    {
        self.form.kind
    }

    /// The depth in the header.
    pub fn depth(&self) -> u32
        ensures { result ≡ self.now.depth }
    {
        self.form.depth
    }

    /// The number of lines.
    pub fn lines(&self) -> u64
        ensures { result ≡ length (lines_of self.now.parts) }
    {
        self.form.lines
    }

    /// Where a line begins in the text, in bytes from the beginning of the text.
    pub fn place(&self, line: u64) -> usize
        requires from_one { 1 ≤ line }
        requires in_text { line ≤ length (lines_of self.now.parts) }
        ensures { result ≡ line_start self.now (line - 1) }
    {
        self.spans[(line - 1) as usize].start
    }

    /// The literals of a line, as they stand.
    pub fn literals(&self, line: u64) -> Literals<'t>
        requires from_one { 1 ≤ line }
        requires in_text { line ≤ length (lines_of self.now.parts) }
        ensures { result ≡ slice_index_or (lines_of self.now.parts) (line - 1) [] }
    {
        let span = self.spans[(line - 1) as usize];
        Literals::new(&self.bytes[span.start..span.end])
    }

    /// The hints of a line, in their order.
    pub fn hints(&self, line: u64) -> Hints<'t>
        requires from_one { 1 ≤ line }
        requires in_text { line ≤ length (lines_of self.now.parts) }
        ensures { result ≡ slice_index_or (hints_of self.now.parts) (line - 1) [] }
    {
        let span = self.spans[(line - 1) as usize];
        let start = span.end + 2;
        let end = find(self.bytes, start, b'\n') - 1;
        Hints::new(&self.bytes[start..end])
    }

    /// The line that a target names; it may name none.
    pub fn target(&self, number: u32) -> u64
        requires from_one { 1 ≤ number }
        requires in_text { number ≤ self.now.depth + 2 }
        ensures { result ≡ slice_index_or self.now.targets (number - 1) 0 }
    {
        self.targets[(number - 1) as usize]
    }

    /// The greatest line at which this one is live, or the line itself where there is none.
    pub fn last_user(&self, line: u64) -> u64
        requires from_one { 1 ≤ line }
        requires in_text { line ≤ length (lines_of self.now.parts) }
        ensures { result ≡ last_user self.now.parts (line - 1) }
    {
        let end = self.ends[(line - 1) as usize];
        if end == u64::MAX {
            self.form.lines
        } else {
            end
        }
    }

    /// Whether the line is live at the close: no delete behind it names it.
    pub fn live_at_close(&self, line: u64) -> bool
        requires from_one { 1 ≤ line }
        requires in_text { line ≤ length (lines_of self.now.parts) }
        ensures { IsTrue result ↔ IsTrue (is_some (live_line self.now.parts line)) }
    {
        self.ends[(line - 1) as usize] == u64::MAX
    }
}
