ghost use Rattle.std.specs.Prelude.{◌≡◌, ◌≤◌, length};
ghost use Rattle.rules.specs.Render.{Renderer, r_all};
ghost use Rattle.rules.specs.Book.{records_from};
ghost use Rattle.makers.specs.Making.{Making, Makes, next_among, MayMakeEach, MakesEach};

use crate::made::{Made, TooLong};
use rules::is_next;

// Whether the next record is of one of these kinds.
pub fn is_among(b: &[u8], i: usize, kinds: &[usize]) -> bool
    requires { (i ≤ length b.now) × (length b.now ≤ 131072) }
    ensures { result ≡ next_among kinds.now (records_from b.now i) }
{
    for kind in kinds {
        if is_next(b, i, *kind) {
            return true;
        }
    }
    false
}

// One part after another, as long as the next record is of one of these kinds.
pub fn make_each<F: Fn(Made, &mut [u8]) -> Result<Made, TooLong>>(
    b: &[u8],
    made: Made,
    kinds: &[usize],
    out: &mut [u8],
    one: F,
) -> Result<Made, TooLong>
    requires places { Making b.now made.next out.old made.end }
    requires may_make { MayMakeEach (F.pre one) kinds.now b.now (length out.old) }
    requires makes { (q : Renderer) × MakesEach (F.post one) kinds.now b.now q }
    ensures { (q : Renderer) → MakesEach (F.post one) kinds.now b.now q → Makes b.now out.old out.new made.next made.end (r_all kinds.now q (records_from b.now made.next)) result }
{
    let mut done = made;
    while is_among(b, done.next, kinds) {
        done = one(done, out)?;
    }
    Ok(done)
}
