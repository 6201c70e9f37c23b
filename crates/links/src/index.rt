// "arrays of 128 entries hold each object's class and its identifier's place"
ghost use Rattle.std.specs.Prelude.{◌≡◌, ◌≤◌, length, take};
ghost use Rattle.links.specs.Finding.{Within, objects_at, Entered};
ghost use Rattle.links.specs.Chains.{Blank, Indexed};

use crate::finding::{find, next_object};
use crate::sorts::id_kind;
use rules::{byte_at, record_end};

// An object: its entry's tag, and where the record of its identifier is.
#[derive(Clone, Copy)]
pub struct Entry {
    pub tag: u8,
    pub id: Option<usize>,
}

// The objects of a book: how many, an entry for each, the first one of each key, and the one of its key after each.
#[derive(Drop)]
pub struct Index {
    pub n: usize,
    pub entries: [Entry; 128],
    pub firsts: [Option<u8>; 256],
    pub nexts: [Option<u8>; 128],
}

impl Index {
    // Of no object.
    fn new() -> Self
        ensures { (result.n ≡ 0) × Blank result.firsts }
    {
        Index {
            n: 0,
            entries: [Entry { tag: 0, id: None }; 128],
            firsts: [None; 256],
            nexts: [None; 128],
        }
    }

    // The objects of a book are entered.
    fn enter(&mut self, b: &[u8])
        requires { (self.old.n ≡ 0) × Within b.now 0 × (length (objects_at b.now 0) ≤ 128) }
        ensures { Entered b.now self.new × (self.new.firsts ≡ self.old.firsts) }
    {
        let mut i = 0;
        for n in 0..128 {
            let Some(j) = next_object(b, i) else {
                return;
            };
            i = record_end(b, j);
            let tag = byte_at(b, j + 4, i, 0);
            self.entries[n] = Entry {
                tag,
                id: find(b, i, id_kind(tag)),
            };
            self.n = n + 1;
        }
    }

    // The index of a book's objects.
    pub fn of(b: &[u8]) -> Self
        requires { Within b.now 0 × (length (objects_at b.now 0) ≤ 128) }
        ensures { Indexed b.now result }
    {
        let mut index = Index::new();
        index.enter(b);
        index.chain(b);
        index
    }

    // An entry for each object.
    pub fn objects(&self) -> &[Entry]
        requires { self.now.n ≤ 128 }
        ensures { result.now ≡ take self.now.n self.now.entries }
    {
        &self.entries[..self.n]
    }
}
