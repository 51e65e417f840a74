//! Where comments end.
ghost use Rattle.std.specs.Prelude.{◌≡◌, ◌<◌, Some, None, MatchOption};
ghost use Rattle.js_tokens.specs.Cursor.{from, IsPlace};
ghost use Rattle.js_tokens.specs.Scan.{after_comment};

use crate::cursor::char_at;

/// The place behind the first `*/`, from behind `/*`.
pub fn comment_end(text: &str, at: usize) -> Option<usize>
    requires { IsPlace text.now at }
    ensures { MatchOption result (after_comment (from text.now at) ≡ None)
        (λ next. (after_comment (from text.now at) ≡ Some (from text.now next)) × (at < next) ×
        IsPlace text.now next) }
{
    let mut place = at;
    'comment: loop {
        let Some((c, next)) = char_at(text, place) else {
            return None;
        };
        if c == '*'
            && let Some(('/', end)) = char_at(text, next)
        {
            return Some(end);
        }
        place = next;
    }
}
