//! The papers in an input: where each begins and ends.
ghost use Rattle.std.specs.Prelude.{◌≡◌, ◌==◌, ◌≤◌, IfNone, IfSome, length, option_map, position, take};
ghost use Rattle.dip_check_papers.specs.PaperTexts.{HasNoEnd, line_at};
ghost use Rattle.dip_check_runs.specs.Input.{EndsOnce, IsAfterLines};
ghost use Rattle.dip_check_runs.specs.Texts as t;

/// The place of the first LF.
fn line_end(bytes: &[u8]) -> Option<usize>
    ensures { result ≡ position (λ b. b == 10) bytes.now }
{
    bytes.iter().position(|b| *b == b'\n')
}

/// The first line and what is after its LF.
fn line_of(bytes: &[u8]) -> Option<(&[u8], &[u8])>
    ensures { option_map (λ p. (p.0.now, p.1.now)) result ≡ line_at bytes.now }
{
    let end = line_end(bytes)?;
    Some((&bytes[..end], &bytes[end + 1..]))
}

/// What is left of the bytes after the empty lines at their front.
pub(crate) fn after_empty_lines(input: &[u8]) -> &[u8]
    ensures { IsAfterLines input.now result.now }
{
    let mut at = 0;
    'lines: while at < input.len() {
        if input[at] != b'\n' {
            return &input[at..];
        }
        at += 1;
    }
    &input[at..]
}

/// After the first line `END`; nothing where there is none.
pub(crate) fn paper_end(input: &[u8]) -> Option<usize>
    ensures most { IfSome result (λ end. end ≤ length input.now) }
    ensures ends { IfSome result (λ end. EndsOnce (take end input.now)) }
    ensures none { IfNone result (HasNoEnd input.now) }
{
    let mut at = input;
    while let Some((line, rest)) = line_of(at) {
        if line == b"END".as_slice() {
            return Some(input.len() - rest.len());
        }
        at = rest;
    }
    None
}

/// The first line of a paper, up to 80 bytes of it.
pub(crate) fn title_in(paper: &[u8]) -> &[u8]
    ensures { result.now ≡ t.title_in paper.now }
{
    let mut at = 0;
    'bytes: while at < paper.len() && at < 80 {
        if paper[at] == b'\n' {
            return &paper[..at];
        }
        at += 1;
    }
    &paper[..at]
}

/// The line, counted from 1, in which the byte after these stands.
pub(crate) fn line_after(bytes: &[u8]) -> usize
    ensures { result ≡ t.line_after bytes.now }
{
    let mut line: usize = 1;
    let mut at = 0;
    'bytes: while at < bytes.len() {
        if bytes[at] == b'\n' {
            line += 1;
        }
        at += 1;
    }
    line
}
