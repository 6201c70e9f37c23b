ghost use Rattle.std.specs.Prelude.{[], ◌≤◌, ◌<◌};
ghost use Rattle.elements.specs.Put.{Put};
ghost use Rattle.rules.specs.Parts.{unless_required, kept_out};
ghost use Rattle.rules.specs.Tables.{rows_of, beside, kept_of};

use crate::rows::{count_of, row_of};
use crate::table::{Need, Sequence};
use elements::put;

// The tag of a component, unless it is required: from o on in `tags`.
fn put_unless_required(need: Need, tag: u8, tags: &mut [u8], o: usize) -> usize
    requires { o < 256 }
    ensures { Put tags.old tags.new o result (unless_required need tag []) }
{
    match need {
        Need::Required => o,
        Need::Optional | Need::Default(_) => put(tags, o, tag),
    }
}

// The tags of components that may be absent and have no row.
fn put_beside(q: Sequence, tags: &mut [u8]) -> usize
    ensures { Put tags.old tags.new 0 result (beside q) × (result ≤ 4) }
{
    match q {
        Sequence::Info => 0,
        Sequence::Common => put(tags, 0, 0x30),
        Sequence::Rule => 0,
        Sequence::Key => 0,
        Sequence::CertificateAttributes => 0,
        Sequence::Authentication => 0,
        Sequence::PrivateKeyAttributes => 0,
        Sequence::PasswordAttributes => put(tags, 0, 0x30),
        Sequence::Path => 0,
        Sequence::Template => put(tags, 0, 0x73),
        Sequence::Discretionary => {
            let a = put(tags, 0, 0x06);
            let b = put(tags, a, 0x30);
            let c = put(tags, b, 0xa0);
            put(tags, c, 0x31)
        }
        Sequence::OdfPath => 0,
        Sequence::InfoPath => 0,
    }
}

// The tags of a sequence's components, but for required ones: from o on in `tags`.
fn put_rows(q: Sequence, tags: &mut [u8], o: usize) -> usize
    requires { o ≤ 4 }
    ensures { Put tags.old tags.new o result (kept_out (rows_of q)) }
{
    let mut n = o;
    for k in 0..count_of(q) {
        let row = row_of(q, k);
        n = put_unless_required(row.need, row.tag, tags, n);
    }
    n
}

// The tags that a sequence's rest does not have: from 0 on in `tags`; and how many they are.
pub fn kept_out(q: Sequence, tags: &mut [u8]) -> usize
    ensures { Put tags.old tags.new 0 result (kept_of q) × (result ≤ 9) }
{
    let n = put_beside(q, tags);
    put_rows(q, tags, n)
}
