// A value as the small program writes it, with no byte that can do harm.
use sentences::write;
use values::Value;
use written::Answer;

pub fn value(texts: &[u8], v: Value) {
    let mut out = [0u8; Answer::LIMIT];
    let n = written::value(texts, v, &mut out, 0);
    write::part(&out, 0, n);
}
