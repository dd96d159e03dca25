//! What stands at the front of a template.
ghost use Rattle.std.specs.Prelude.{◌≡◌, ℕ, List, [], ◌++◌, MatchOption};
ghost use Rattle.mk_launch.specs.inner.Steps.{FrontOf, front_of};

// What stands at the front of a template's rest.
#[derive(Clone, Copy)]
pub enum Front {
    Space,
    Quote(char),
    Letter(char),
    // `%(addr)s`.
    Address,
    // `%%`.
    Percent,
    // A per cent sign that begins neither.
    Stray,
}

// What stands at a text's front, and the text behind it.
pub fn split_front<'a>(rest: &'a str) -> Option<(Front, &'a str)>
    ensures { MatchOption result (rest.entry.now ≡ []) (λ r. FrontOf rest.entry.now r.0 r.1.now) }
{
    if let Some(after) = behind("%(addr)s", rest) {
        return Some((Front::Address, after));
    }
    if let Some(after) = behind("%%", rest) {
        return Some((Front::Percent, after));
    }
    let mut chars = rest.chars();
    let c = chars.next()?;
    Some((front_of(c), chars.as_str()))
}

// What follows the beginning, if the text has it.
fn behind<'a>(start: &str, text: &'a str) -> Option<&'a str>
    ensures { MatchOption result ((v : List ℕ) → text.entry.now ≡ start.now ++ v
        → ⊥) (λ v. text.entry.now ≡ start.now ++ v.now) }
{
    text.strip_prefix(start)
}

fn front_of(c: char) -> Front
    ensures { result ≡ front_of c }
{
    match c {
        ' ' => Front::Space,
        '"' | '\'' => Front::Quote(c),
        '%' => Front::Stray,
        _ => Front::Letter(c),
    }
}
