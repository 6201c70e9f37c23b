ghost use Rattle.std.specs.Prelude.{◌+◌, ◌≤◌, ℕ, List, length};
ghost use Rattle.makers.specs.Making.{MayMake, EndsInside, Enclosed};
ghost use Rattle.rules.specs.Render.{framing};
ghost use Rattle.writer.specs.MakingFiles.{MayFront, Fronts, fronted_by};

use elements::put_le16;
use makers::{Made, TooLong, opened};

// What `inside` makes, behind k bytes: `front` puts them, and is told how long it is.
pub fn behind<
    F: FnOnce(Made, &mut [u8]) -> Result<Made, TooLong>,
    G: FnOnce(&mut [u8], usize, u16),
>(made: Made, k: usize, out: &mut [u8], inside: F, front: G) -> Result<Made, TooLong>
    requires room { (made.end ≤ length out.old) × (length out.old ≤ 32768) × (k ≤ 4) }
    requires may_make { MayMake (F.pre inside) made.next (length out.old) }
    requires ends_inside { EndsInside (F.post inside) }
    requires may_front { MayFront (G.pre front) }
    ensures { (f : ℕ → List ℕ) → Fronts (G.post front) k f → Enclosed (F.post inside) out.old out.new made.next made.end k (fronted_by f) result }
{
    let o = made.end;
    let made = inside(opened(made, k, out.len()), out)?;
    if made.end < o + k {
        return Err(TooLong);
    }
    front(out, o, (made.end - (o + k)) as u16);
    Ok(made)
}

// What `inside` makes as a dump record: its length and its kind in front.
pub fn fronted<F: FnOnce(Made, &mut [u8]) -> Result<Made, TooLong>>(
    made: Made,
    kind: u16,
    out: &mut [u8],
    inside: F,
) -> Result<Made, TooLong>
    requires room { (made.end ≤ length out.old) × (length out.old ≤ 32768) }
    requires may_make { MayMake (F.pre inside) made.next (length out.old) }
    requires ends_inside { EndsInside (F.post inside) }
    ensures { Enclosed (F.post inside) out.old out.new made.next made.end 4 (framing kind) result }
{
    behind(made, 4, out, inside, |out, o, n| {
        let p = put_le16(out, o, n + 2);
        put_le16(out, p, kind);
    })
}
