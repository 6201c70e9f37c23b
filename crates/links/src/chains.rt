// Objects whose identifiers have the same key, in chains: a link looks at those of its own key alone.
ghost use Rattle.std.specs.Prelude.{◌≤◌, length};
ghost use Rattle.std.proofs.Math.Seq.{slice};
ghost use Rattle.links.specs.Finding.{Within, Entered};
ghost use Rattle.links.specs.Chains.{Key, Blank, Indexed};

use crate::index::Index;
use rules::record_end;

// What equal identifiers have in common: the last byte of what stands from p to e, 0 if there is none.
pub fn key(b: &[u8], p: usize, e: usize) -> usize
    requires { e ≤ length b.now }
    ensures { Key (slice p e b.now) result }
{
    if e <= p {
        return 0;
    }
    b[e - 1] as usize
}

impl Index {
    // The chains of the objects that were entered: the first one of each key, and the one of its key after each object.
    pub fn chain(&mut self, b: &[u8])
        requires { Entered b.now self.old × Blank self.old.firsts × Within b.now 0 }
        ensures { Indexed b.now self.new }
    {
        for j in (0..self.n).rev() {
            let Some(p) = self.entries[j].id else {
                continue;
            };
            let h = key(b, p + 4, record_end(b, p));
            self.nexts[j] = self.firsts[h];
            self.firsts[h] = Some(j as u8);
        }
    }
}
