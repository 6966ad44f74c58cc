// Things of which each is told that has something to be told.
use sentences::write;

// Tells of each of the first `n`; where there was nothing to tell, that.
pub fn or_none<F: Fn(usize) -> bool>(n: usize, none: &[u8], tell: F)
    requires { F.IsAlwaysCallable tell }
{
    let mut any = false;
    for k in 0..n {
        any = tell(k) || any;
    }
    if !any {
        write::text(none);
    }
}
