//! The target of a request, and its path.
ghost use Rattle.std.specs.Prelude.{◌==◌, ◌≡◌, IsAscii, nat_lt, true};
ghost use Rattle.std.specs.List.{list_all, position};
ghost use Rattle.dip_http_messages.specs.Targets.{before_query, is_target};

fn are_plain(target: &[u8]) -> bool
    ensures { result ≡ list_all (λ c. nat_lt c 127) target.now }
{
    target.iter().all(|byte| *byte < 127)
}

/// Whether a target begins with `/` and has no byte past `~`.
pub fn is_target(target: &[u8]) -> bool
    ensures { result ≡ is_target target.now }
{
    !target.is_empty() && target[0] == b'/' && are_plain(target)
}

fn query_start(target: &[u8]) -> Option<usize>
    ensures { result ≡ position (λ b. b == 63) target.now }
{
    target.iter().position(|byte| *byte == b'?')
}

/// What stands before the first `?`.
fn before_query(target: &[u8]) -> &[u8]
    ensures { result.now ≡ before_query target.entry.now }
{
    match query_start(target) {
        Some(end) => &target[..end],
        None => target,
    }
}

/// The path of a target, without the query.
pub fn path_of(target: &[u8]) -> &str
    requires { is_target target.now ≡ true }
    ensures path { result.now ≡ before_query target.entry.now }
    ensures ascii { IsAscii result.now }
{
    str::from_utf8(before_query(target)).unwrap()
}
