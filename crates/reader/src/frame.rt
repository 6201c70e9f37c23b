ghost use Rattle.std.specs.Prelude.{◌≡◌, [], ◌+◌, ◌-◌, ◌≤◌, length};
ghost use Rattle.rules.specs.Files.{fits, file_in, frame, named_file, named_frame, whole};
ghost use Rattle.reader.specs.Frame.{Spanned, framed_as, Inner, Path, FramesTold};

use elements::{Fault, Refusal};
use rules::word;

// A record of the dump: its kind, and from where to where stands what is in it.
#[derive(Clone, Copy, Debug, PartialEq, Eq)]
pub struct Span(pub usize, pub usize, pub usize);

// A file of the dump: its kind, where its path starts, where the file starts and ends.
#[derive(Clone, Copy, Debug, PartialEq, Eq)]
pub struct Extent {
    pub kind: usize,
    pub path: usize,
    pub start: usize,
    pub stop: usize,
}

// The record at `at`, of one of the kinds that are due.
fn record_at(s: &[u8], low: usize, high: usize, at: usize) -> Result<Span, Refusal>
    requires { (at ≤ length s.now) × (length s.now ≤ 32768) }
    ensures { Spanned s.now low high at result }
{
    if s.len() <= at {
        return Err(Refusal(Fault::RecordMissing, at));
    }
    if s.len() < at + 4 {
        return Err(Refusal(Fault::RecordBroken, at));
    }
    let n = word(s, at);
    if n < 2 {
        return Err(Refusal(Fault::RecordBroken, at));
    }
    if s.len() < at + 2 + n {
        return Err(Refusal(Fault::RecordBroken, at));
    }
    let kind = word(s, at + 2);
    if kind < low {
        return Err(Refusal(Fault::RecordKind, at));
    }
    if high < kind {
        return Err(Refusal(Fault::RecordKind, at));
    }
    Ok(Span(kind, at + 4, at + 2 + n))
}

// A file behind n bytes of its record, which reaches from `start` to `stop`.
fn file_in(at: usize, kind: usize, n: usize, start: usize, stop: usize) -> Result<Extent, Refusal>
    requires { (n ≤ 65) × (start ≤ 32768) }
    ensures { file_in [] at kind n start stop ≡ framed_as at result }
{
    if stop < start + n {
        return Err(Refusal(Fault::PathLength, at));
    }
    if 16383 < stop - (start + n) {
        return Err(Refusal(Fault::FileLength, at));
    }
    Ok(Extent {
        kind,
        path: start + 1,
        start: start + n,
        stop,
    })
}

// EF.DIR's, CIAInfo's or EF.OD's file.
pub fn frame(s: &[u8], kind: usize, at: usize) -> Result<Extent, Refusal>
    requires { (at ≤ length s.now) × (length s.now ≤ 32768) }
    ensures { (frame s.now kind at ≡ framed_as at result) × Inner s.now at result }
{
    let x = record_at(s, kind, kind, at)?;
    file_in(at, x.0, 0, x.1, x.2)
}

// A directory file behind its path.
fn named_file(s: &[u8], at: usize, kind: usize, a: usize, e: usize) -> Result<Extent, Refusal>
    requires { (at + 4 ≤ a) × (e ≤ length s.now) × (length s.now ≤ 32768) }
    ensures { named_file s.now at kind a e ≡ framed_as at result }
{
    if e <= a {
        return Err(Refusal(Fault::PathLength, at));
    }
    let n = usize::from(s[a]);
    if n < 1 {
        return Err(Refusal(Fault::PathLength, at));
    }
    if 64 < n {
        return Err(Refusal(Fault::PathLength, at));
    }
    file_in(at, kind, 1 + n, a, e)
}

// A directory file with its path.
pub fn named_frame(s: &[u8], at: usize) -> Result<Extent, Refusal>
    requires { (at ≤ length s.now) × (length s.now ≤ 32768) }
    ensures { (named_frame s.now at ≡ framed_as at result) × Inner s.now at result × Path s.now at result }
{
    let x = record_at(s, 3, 4, at)?;
    named_file(s, at, x.0, x.1, x.2)
}

// Whether no record from `at` on runs over: one after the other, they end where the file ends.
fn records_fit(s: &[u8], stop: usize, at: usize) -> bool
    requires { (at ≤ stop) × (stop ≤ length s.now) × (length s.now ≤ 32768) }
    ensures { result ≡ fits s.now (stop - at) stop at }
{
    let mut i = at;
    while i < stop {
        if stop < i + 2 {
            return false;
        }
        i = i + 2 + word(s, i);
    }
    i == stop
}

// A directory file; one of records has none that runs over.
fn whole_frame(s: &[u8], at: usize) -> Result<Extent, Refusal>
    requires { (at ≤ length s.now) × (length s.now ≤ 32768) }
    ensures { (whole s.now (named_frame s.now at) ≡ framed_as at result) × Inner s.now at result }
{
    let file = named_frame(s, at)?;
    if file.kind == 3 {
        return Ok(file);
    }
    if records_fit(s, file.stop, file.start) {
        return Ok(file);
    }
    Err(Refusal(Fault::RecordOver, at))
}

// Every record from `at` on.
pub fn frames(s: &[u8], at: usize) -> Result<(), Refusal>
    requires { (at ≤ length s.now) × (length s.now ≤ 32768) }
    ensures { FramesTold s.now at result }
{
    let mut i = at;
    while i < s.len() {
        let file = whole_frame(s, i)?;
        i = file.stop;
    }
    Ok(())
}
