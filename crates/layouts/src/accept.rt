ghost use Rattle.std.specs.Prelude.{◌≤◌, ◌≡◌, length};
ghost use Rattle.layouts.specs.Accept.{Confirms, Tried, BookTold};

use reader::read_into;
use writer::render_into;

// Whether reading the candidate d gives the book b.
fn confirms(b: &[u8], d: &[u8]) -> bool
    ensures { Confirms b.now d.now result }
{
    let mut back = [0u8; 131072];
    match read_into(d, &mut back) {
        Ok(m) => back[..m] == b[..],
        Err(_) => false,
    }
}

// The acceptance test: the one dump that could have the book is made in d, and read back; how many bytes it has, if it has the book.
pub fn tried(b: &[u8], d: &mut [u8]) -> Option<usize>
    requires { length d.old ≡ 32768 }
    ensures { Tried b.now d.new result }
{
    if 131072 < b.len() {
        return None;
    }
    let Ok(made) = render_into(b, d) else {
        return None;
    };
    if confirms(b, &d[..made.end]) {
        return Some(made.end);
    }
    None
}

// Whether an accepted dump has this book.
pub fn is_book(b: &[u8]) -> bool
    ensures { BookTold b.now result }
{
    let mut d = [0u8; 32768];
    tried(b, &mut d).is_some()
}
