//! Layout and comments (ISO/IEC 13211-1, 6.4.1).
ghost use Rattle.std.specs.Prelude.{◌≡◌, ◌≤◌, ◌+◌, List, ℕ, length, drop, Option, IfSome, IfOk};
ghost use Rattle.text_model.specs.Tokens.{line_len, block_len, layout_step, step_of, skipped_from, skipped_view};

/// The bytes before the end of the line.
fn line_len(rest: &[u8]) -> usize
    ensures value { result ≡ line_len rest.now }
    ensures within { result ≤ length rest.now }
{
    rest.iter().take_while(|b| **b != b'\n').count()
}

/// The bytes before the first `*/`, or None where there is none.
fn block_len(rest: &[u8]) -> Option<usize>
    ensures value { result ≡ block_len rest.now }
    ensures within { IfSome result (λ n. n + 2 ≤ length rest.now) }
{
    let mut at = 0;
    while at + 1 < rest.len() {
        if rest[at] == b'*' && rest[at + 1] == b'/' {
            return Some(at);
        }
        at += 1;
    }
    None
}

/// Where layout and comments end that begin at a place: the place after them, or where a comment is unfinished.
pub fn skip(text: &[u8], start: usize) -> Result<usize, usize>
    requires { start ≤ length text.now }
    ensures value { skipped_view result ≡ skipped_from start text.now }
    ensures within { IfOk result (λ at. at ≤ length text.now) }
{
    let mut at = start;
    loop {
        match layout_step(&text[at..]) {
            None => return Err(at),
            Some(0) => return Ok(at),
            Some(n) => at += n,
        }
    }
}

/// How many bytes one byte of layout or one comment takes: 0 where there is none, None where it is unfinished.
fn layout_step(rest: &[u8]) -> Option<usize>
    ensures step { step_of result ≡ layout_step rest.now }
    ensures within { IfSome result (λ n. n ≤ length rest.now) }
{
    let Some(first) = rest.first() else {
        return Some(0);
    };
    let first = *first;
    if first == b' ' || (9..=13).contains(&first) {
        Some(1)
    } else if first == b'%' {
        Some(line_len(&rest[1..]) + 1)
    } else if first == b'/' && rest.len() > 1 && rest[1] == b'*' {
        match block_len(&rest[2..]) {
            Some(n) => Some(n + 4),
            None => None,
        }
    } else {
        Some(0)
    }
}
