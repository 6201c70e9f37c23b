ghost use Rattle.std.specs.Prelude.{◌≡◌, ◌&&◌, ◌+◌, ◌≤◌, length, get_or};
ghost use Rattle.std.proofs.Math.Seq.{slice};
ghost use Rattle.rules.specs.Files.{equal, met};
ghost use Rattle.files.specs.Scan.{Holds, AgainTold, IdsTold, NameTold, Whole, Spans, behind, bears, key_at, skip, MetTold, RepeatTold, Places, placed_keys, Indexed, Noted};

use rules::{is_name, same_bytes, word};

// What a record may bear that must differ from record to record: the path that an entry names, an own authId.
#[derive(Clone, Copy, Debug, PartialEq, Eq)]
enum Key {
    Path,
    Own,
}

// Where the record at j ends.
fn after(b: &[u8], j: usize) -> usize
    requires { Whole b.now j }
    ensures { result ≡ behind b.now j }
{
    j + 2 + word(b, j)
}

// Whether the record at j bears a key.
fn is_bearing(b: &[u8], x: Key, j: usize) -> bool
    requires { Whole b.now j }
    ensures { result ≡ bears b.now x j }
{
    match x {
        Key::Path => is_name(b, j, after(b, j)),
        Key::Own => word(b, j + 2) == 0x0150,
    }
}

// How many bytes of a record stand before its key.
fn skipped(x: Key) -> usize
    ensures { result ≡ skip x }
{
    match x {
        Key::Path => 6,
        Key::Own => 4,
    }
}

// Whether the record at k bears the key that stands from p to e.
fn bears_it(b: &[u8], x: Key, k: usize, p: usize, e: usize) -> bool
    requires { Whole b.now k × Spans b.now p e }
    ensures { result ≡ (bears b.now x k && equal (slice p e b.now) (key_at b.now x k)) }
{
    if is_bearing(b, x, k) {
        return same_bytes(b, p, e, b, k + skipped(x), after(b, k));
    }
    false
}

// Whether one of the records from i to j bears the key that stands from p to e.
fn met_before(b: &[u8], x: Key, i: usize, j: usize, p: usize, e: usize) -> bool
    requires { Holds b.now i j × Spans b.now p e }
    ensures { MetTold b.now x i j p e result }
{
    let mut k = i;
    while k < j {
        if bears_it(b, x, k, p, e) {
            return true;
        }
        k = after(b, k);
    }
    false
}

// Whether the record at j bears a key that one of the records from i to j bears.
fn repeats(b: &[u8], x: Key, i: usize, j: usize) -> bool
    requires { Holds b.now i j × Whole b.now j }
    ensures { RepeatTold b.now x i j result }
{
    if is_bearing(b, x, j) {
        return met_before(b, x, i, j, j + skipped(x), after(b, j));
    }
    false
}

// The next record from i on that names a path.
pub fn next_name(b: &[u8], i: usize, end: usize) -> Option<usize>
    requires { Holds b.now i end }
    ensures { NameTold b.now i end result }
{
    let mut j = i;
    while j < end {
        if is_bearing(b, Key::Path, j) {
            return Some(j);
        }
        j = after(b, j);
    }
    None
}

// 12: `again`, if an entry before this one names a path once more; else `place`, if the record at j names a path that one of the records from i to j names.
pub fn first_again(
    b: &[u8],
    i: usize,
    j: usize,
    place: usize,
    again: Option<usize>,
) -> Option<usize>
    requires { Holds b.now i j × Whole b.now j }
    ensures { AgainTold b.now i j place again result }
{
    match again {
        Some(p) => Some(p),
        None => repeats(b, Key::Path, i, j).then_some(place),
    }
}

// The k-th place, 0 if there is none.
fn mark(marks: &[u32], k: usize) -> usize
    ensures { result ≡ get_or marks.now k 0 }
{
    if k < marks.len() {
        return marks[k] as usize;
    }
    0
}

// Whether one of the records at the first c places of `own` bears the own authId that stands from p to e.
fn met_own(b: &[u8], own: &[u32], c: usize, p: usize, e: usize) -> bool
    requires { Places b.now own.now c × Spans b.now p e }
    ensures { result ≡ met (slice p e b.now) (placed_keys b.now own.now c) }
{
    for k in 0..c {
        if bears_it(b, Key::Own, own[k] as usize, p, e) {
            return true;
        }
    }
    false
}

// Whether the record at j bears an own authId that one of the records from i to j bears: by the index, or where that is full by the records.
fn repeats_own(b: &[u8], i: usize, j: usize, own: &[u32], c: usize) -> bool
    requires { Indexed b.now own.now i j c × Whole b.now j }
    ensures { RepeatTold b.now Key.Own i j result }
{
    if 128 <= c {
        return repeats(b, Key::Own, i, j);
    }
    if is_bearing(b, Key::Own, j) {
        return met_own(b, own, c, j + skipped(Key::Own), after(b, j));
    }
    false
}

// Adds the place of the record at j to the index if it bears an own authId; a place of more than 32 bits makes the index full.
fn noted(b: &[u8], own: &mut [u32], c: usize, j: usize) -> usize
    requires { Whole b.now j × (128 ≤ length own.old) }
    ensures { Noted b.now own.old own.new c j result }
{
    if 128 <= c {
        return c;
    }
    if is_bearing(b, Key::Own, j) {
        if j < 0x100000000 {
            own[c] = j as u32;
            return c + 1;
        }
        return 128;
    }
    c
}

// 13, with room for the index of own authIds.
fn id_twice_by(b: &[u8], i: usize, end: usize, marks: &[u32], own: &mut [u32]) -> Option<usize>
    requires { Holds b.now i end × (128 ≤ length own.old) }
    ensures { IdsTold b.now marks.now i end result }
{
    let mut j = i;
    let mut k = 0;
    let mut place = 0;
    let mut c = 0;
    while j < end {
        if repeats_own(b, i, j, own, c) {
            return Some(place);
        }
        c = noted(b, own, c, j);
        if word(b, j + 2) == 0x0120 {
            place = mark(marks, k);
            k += 1;
            j = after(b, j);
            continue;
        }
        j = after(b, j);
    }
    None
}

// 13: whether an own authId is repeated among the records from i to `end`, whose k-th object is at marks[k].
pub fn id_twice(b: &[u8], i: usize, end: usize, marks: &[u32]) -> Option<usize>
    requires { Holds b.now i end }
    ensures { IdsTold b.now marks.now i end result }
{
    let mut own = [0u32; 128];
    id_twice_by(b, i, end, marks, &mut own)
}
