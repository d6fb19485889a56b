//! Texts that may be shown to others.

ghost use Rattle.std.specs.Prelude.{◌≡◌, get_or, chars};
ghost use Rattle.std.specs.List.{list_all};
ghost use Rattle.user_names.specs.ShownText.{turns_writing, ends_line, is_shown_character, last_character, is_shown_text};

#[tactic(auto, unfolding(crate::specs::ShownText::turns_writing))]
fn turns_writing(c: char) -> bool
    ensures { result ≡ turns_writing c }
{
    matches!(c, '\u{61C}' | '\u{200E}'..='\u{200F}' | '\u{202A}'..='\u{202E}' | '\u{2066}'..='\u{2069}')
}

#[tactic(auto, unfolding(crate::specs::ShownText::ends_line))]
fn ends_line(c: char) -> bool
    ensures { result ≡ ends_line c }
{
    matches!(c, '\u{2028}'..='\u{2029}')
}

#[tactic(auto, unfolding(crate::specs::ShownText::is_shown_character))]
fn is_shown_character(c: char) -> bool
    ensures { result ≡ is_shown_character c }
{
    !c.is_control() && !turns_writing(c) && !ends_line(c)
}

fn has_shown_characters(text: &str) -> bool
    ensures { result ≡ list_all is_shown_character (chars text.now) }
{
    let mut shown = true;
    for c in text.chars() {
        shown = shown && is_shown_character(c);
    }
    shown
}

fn first_character(text: &str) -> char
    ensures { result ≡ get_or (chars text.now) 0 0x20 }
{
    text.chars().next().unwrap_or(' ')
}

fn last_character(text: &str) -> char
    ensures { result ≡ last_character 0x20 (chars text.now) }
{
    let mut last = ' ';
    for c in text.chars() {
        last = c;
    }
    last
}

/// Whether the text may be shown: it isn't empty, has no blank at either end, and no character that is a control
/// character, turns the direction of writing, or ends a line.
#[tactic(auto, using(crate::proofs::ShownLemmas::shown_where_utf8), unfolding(crate::specs::ShownText::are_shown))]
pub fn is_shown_text(text: &str) -> bool
    ensures { result ≡ is_shown_text text.now }
{
    let shown = has_shown_characters(text);
    let begins = !first_character(text).is_whitespace();
    let ends = !last_character(text).is_whitespace();
    shown && (begins && ends)
}
