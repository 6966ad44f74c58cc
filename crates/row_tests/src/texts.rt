// Whether two texts are equal, byte by byte.
ghost use Rattle.std.specs.Prelude.{◌≡◌};
ghost use Rattle.paper_expressions.proofs.Laws.Search.{sameb};
ghost use Rattle.parts.specs.Texts.{text_at_fn};

use parts::{HANDLE, byte};

pub fn same(bytes: &[u8], g: usize, h: usize) -> bool
    ensures { result ≡ sameb (text_at_fn bytes.now g) (text_at_fn bytes.now h) }
{
    let n = g % HANDLE;
    let x = g / HANDLE;
    let y = h / HANDLE;
    n == h % HANDLE && (0..n).all(|i| byte(bytes, x + i) == byte(bytes, y + i))
}
