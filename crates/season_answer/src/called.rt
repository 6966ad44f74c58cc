// The names of tasks and data items, by their handles.
ghost use Rattle.parts.specs.Texts.{text_at_fn};
ghost use Rattle.digits.specs.Appends.{Appends};

use parts::HANDLE;
use parts::names::at;

// The text with the handle `h`, from the place `o` on.
pub fn name(texts: &[u8], h: usize, out: &mut [u8], o: usize) -> usize
    ensures { Appends out.old out.new o result (text_at_fn texts.now h) }
{
    let x = h / HANDLE;
    let n = h % HANDLE;
    let mut p = o;
    for i in 0..n {
        p = digits::byte(at(texts, x, i), out, p);
    }
    p
}
