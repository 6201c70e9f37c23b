// "link rows are written to a lent u32 slice"
ghost use Rattle.std.specs.Prelude.{◌≡◌, [], ◌∷◌, ◌+◌, ◌^◌, ◌≤◌, ◌<◌, length};
ghost use Rattle.std.proofs.Math.Seq.{slice};
ghost use Rattle.elements.specs.Put.{Put};
ghost use Rattle.links.specs.Links.{number, row, answers, rows_of, object_rows, links_from};
ghost use Rattle.links.specs.Numbers.{number_of, reply_by};
ghost use Rattle.links.specs.Finding.{Within, objects_at, held_at, Lies, AnswerTold, RowsPut};
ghost use Rattle.links.specs.Chains.{Indexed};

use crate::chains::key;
use crate::finding::next_object;
use crate::index::{Entry, Index};
use crate::sorts::{Link, is_answering, is_closing, link_of};
use elements::put;
use rules::{byte_at, record_end, same_bytes, word};

// A record that states a link: the link, its object, where it is and where it ends.
#[derive(Clone, Copy)]
struct Statement {
    link: Link,
    object: u32,
    at: usize,
    end: usize,
}

// Four numbers from o on.
fn put_four(rows: &mut [u32], o: usize, link: u32, object: u32, at: u32, answer: u32) -> usize
    requires { o < 2 ^ 62 }
    ensures { Put rows.old rows.new o result (link ∷ object ∷ at ∷ answer ∷ []) }
{
    let p = put(rows, o, link);
    let q = put(rows, p, object);
    let r = put(rows, q, at);
    put(rows, r, answer)
}

// "answering object, or 4,294,967,295 for missing"
fn number(answer: Option<u8>) -> u32
    ensures { result ≡ number (reply_by answer) }
{
    match answer {
        Some(j) => u32::from(j),
        None => u32::MAX,
    }
}

// Row o of the list, where the numbers lent begin with row w: what is stated, and the object that answers.
fn put_row(rows: &mut [u32], w: usize, o: usize, s: Statement, answer: Option<u8>) -> usize
    requires { (o < 2 ^ 60) × (s.at ≤ 131072) }
    ensures { RowsPut w rows.old rows.new o result (row (number_of s.link) s.object s.at (reply_by answer) ∷ []) }
{
    if o < w {
        return o + 1;
    }
    put_four(
        rows,
        4 * (o - w),
        u32::from(s.link),
        s.object,
        s.at as u32,
        number(answer),
    );
    o + 1
}

// Whether an object answers what is stated, by its entry.
fn is_answer(b: &[u8], s: Statement, x: &Entry) -> bool
    requires { Lies b.now x.now.id × (s.at + 4 ≤ s.end) × (s.end ≤ length b.now) }
    ensures { AnswerTold b.now s.at s.end (number_of s.link) x.now.tag x.now.id result }
{
    if !is_answering(u32::from(s.link), x.tag) {
        return false;
    }
    match x.id {
        Some(p) => same_bytes(b, s.at + 4, s.end, b, p + 4, record_end(b, p)),
        None => false,
    }
}

// The rows of what is stated: each object that answers, out of its identifier's chain, or that none does.
fn put_answers(b: &[u8], s: Statement, index: &Index, rows: &mut [u32], w: usize, o: usize) -> usize
    requires { Indexed b.now index.now × Within b.now s.end × (s.at + 4 ≤ s.end) × (o < 2 ^ 59) }
    ensures { RowsPut w rows.old rows.new o result (rows_of (number_of s.link) s.object s.at (answers (number_of s.link) (slice (s.at + 4) s.end b.now) 0 (objects_at b.now 0))) × (result ≤ o + 128) }
{
    let mut next = index.firsts[key(b, s.at + 4, s.end)];
    let mut q = o;
    while let Some(j) = next {
        next = index.nexts[j as usize];
        if is_answer(b, s, &index.entries[j as usize]) {
            q = put_row(rows, w, q, s, Some(j));
        }
    }
    if q == o {
        return put_row(rows, w, o, s, None);
    }
    q
}

// The rows of an object's records, from the one at i on.
fn put_object(
    b: &[u8],
    i: usize,
    tag: u8,
    object: u32,
    index: &Index,
    rows: &mut [u32],
    w: usize,
    o: usize,
) -> usize
    requires { Indexed b.now index.now × Within b.now i × (o < 2 ^ 58) }
    ensures { RowsPut w rows.old rows.new o result (object_rows (objects_at b.now 0) object tag (held_at b.now i)) × (result ≤ o + 16777216) }
{
    let mut j = i;
    let mut q = o;
    while j + 4 <= b.len() {
        let k = word(b, j + 2);
        if is_closing(k) {
            return q;
        }
        let e = record_end(b, j);
        if let Some(link) = link_of(tag, k) {
            let s = Statement {
                link,
                object,
                at: j,
                end: e,
            };
            q = put_answers(b, s, index, rows, w, q);
        }
        j = e;
    }
    q
}

// All rows of the list, where the numbers lent begin with row w; how many there are.
pub fn put_links(b: &[u8], index: &Index, rows: &mut [u32], w: usize) -> usize
    requires { Indexed b.now index.now × Within b.now 0 }
    ensures { RowsPut w rows.old rows.new 0 result (links_from (objects_at b.now 0) 0 (objects_at b.now 0)) × (result ≤ 2147483648) }
{
    let mut i = 0;
    let mut q = 0;
    for k in 0..index.n {
        let Some(j) = next_object(b, i) else {
            return q;
        };
        i = record_end(b, j);
        let tag = byte_at(b, j + 4, i, 0);
        q = put_object(b, i, tag, k as u32, index, rows, w, q);
    }
    q
}
