//! Whether a request has arguments at all.
ghost use Rattle.std.specs.Prelude.{◌≡◌};
ghost use Rattle.mk_simapi.specs.Requests.{is_bare, is_unnamed};

use mk_base::{Json, List};

// Whether there is no keyword argument.
pub fn is_unnamed(named: &Json) -> bool
    ensures { result ≡ is_unnamed named.now }
{
    match named.as_object() {
        Some(members) => members.is_empty(),
        None => false,
    }
}

// Whether there is no argument at all.
pub fn is_bare(args: &List<Json>, named: &Json) -> bool
    ensures { result ≡ is_bare args.now named.now }
{
    args.is_empty() && is_unnamed(named)
}
