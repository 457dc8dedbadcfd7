//! Lists with what the checker keeps for each caller, or None if the caller is not subscribed.
ghost use Rattle.std.specs.Prelude.{◌≡◌};
ghost use Rattle.flow_check.specs.Subscribed.{present};

/// Returns how many callers are subscribed.
pub fn present<A>(callers: &[Option<A>]) -> usize
    ensures { result ≡ present callers.now }
{
    let mut rest = callers;
    let mut count = 0;
    while let Some((first, others)) = rest.split_first() {
        if first.is_some() {
            count += 1;
        }
        rest = others;
    }
    count
}
