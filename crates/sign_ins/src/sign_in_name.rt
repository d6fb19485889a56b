//! Names to sign in by, made of names to show.

ghost use Rattle.std.specs.Prelude.{◌≡◌, [], ◌≤◌, ◌&&◌, ◌++◌, true, false, not, length, nat_eq, IfOk, IfSome, IfNone, OnOk, chars, option_map, string_bytes, if◌then◌else◌, Some, None};
ghost use Rattle.std.specs.Char.{is_whitespace};
ghost use Rattle.sign_ins.specs.SignInName.{IsFirstFree, NoneIsFree, first_word, is_free, is_name_taken, or_guest, sign_in_base, spelt_out, with_sign, with_signs};

use std::alloc::{AllocError, Global};
use unicode_normalization::to_nfkd;
use user_names::Name;

/// How many letters of a name to show are taken, so that a number has room behind them. The last of them may stand for a sign
/// that is spelt by two.
const MOST_LETTERS: usize = 24;

/// How many names are tried that begin alike.
const MOST_NAMES: u32 = 999;

/// The letters and digits of the first word of a name to show, small and in ASCII; `guest` where there are none.
#[tactic(auto, unfolding(crate::specs::SignInName::sign_in_base))]
pub fn sign_in_base(alloc: Global, shown: &str) -> Result<String, AllocError>
    ensures { IfOk result (λ base. string_bytes base ≡ sign_in_base shown.now) }
{
    let plain = to_nfkd(alloc, shown)?;
    let letters = letters_of(alloc, plain.as_str())?;
    or_guest(letters)
}

fn or_guest(letters: String) -> Result<String, AllocError>
    ensures { IfOk result (λ base. string_bytes base ≡ or_guest (string_bytes letters)) }
{
    let mut base = letters;
    if !base.is_empty() {
        return Ok(base);
    }
    base.push_str("guest")?;
    Ok(base)
}

fn letters_of(alloc: Global, plain: &str) -> Result<String, AllocError>
    ensures { IfOk result (λ letters. string_bytes letters ≡ with_signs [] (first_word (chars plain.now))) }
{
    let mut letters = String::new(alloc);
    for sign in plain.chars() {
        if is_word_end(letters.as_str(), sign) {
            return Ok(letters);
        }
        push_sign(&mut letters, sign)?;
    }
    Ok(letters)
}

// Whether a word ends at a sign, behind these letters of it.
fn is_word_end(letters: &str, sign: char) -> bool
    ensures { result ≡ (is_whitespace sign && not (nat_eq (length letters.now) 0)) }
{
    sign.is_whitespace() && !letters.is_empty()
}

// Adds what a sign is spelt by, where there is room.
fn push_sign(letters: &mut String, sign: char) -> Result<(), AllocError>
    ensures { OnOk result (string_bytes letters.new ≡ with_sign (string_bytes letters.old) sign) }
{
    if letters.len() >= MOST_LETTERS {
        return Ok(());
    }
    if sign.is_ascii_alphanumeric() {
        return letters.push(sign.to_ascii_lowercase());
    }
    letters.push_str(spelt_out(sign))
}

// What a letter is spelt by that is no ASCII letter with marks.
#[tactic(auto, unfolding(crate::specs::SignInName::spelt_out))]
fn spelt_out(sign: char) -> &'static str
    ensures { result.now ≡ spelt_out sign }
{
    match sign {
        'ß' | 'ẞ' => "ss",
        'æ' | 'Æ' => "ae",
        'œ' | 'Œ' => "oe",
        'ø' | 'Ø' => "o",
        'ł' | 'Ł' => "l",
        'đ' | 'Đ' | 'ð' | 'Ð' => "d",
        'þ' | 'Þ' => "th",
        'ħ' | 'Ħ' => "h",
        'ı' => "i",
        'ŋ' | 'Ŋ' => "n",
        _ => "",
    }
}

/// A name that begins as this one and isn't among those that are taken: itself, or with a number from 2 behind it.
pub fn free_name(alloc: Global, base: &str, taken: &[Name]) -> Result<Option<Name>, AllocError>
    ensures free { IfOk result (λ name. IfSome name (IsFirstFree taken.now base.now)) }
    ensures none { IfOk result (λ name. IfNone name (NoneIsFree taken.now base.now)) }
{
    if let Some(name) = name_if_free(base, taken) {
        return Ok(Some(name));
    }
    for number in 2..MOST_NAMES + 1 {
        let text = format!(in alloc; "{base}{number}")?;
        if let Some(name) = name_if_free(text.as_str(), taken) {
            return Ok(Some(name));
        }
    }
    Ok(None)
}

fn name_if_free(text: &str, taken: &[Name]) -> Option<Name>
    ensures free { IfSome result (λ name. (name ≡ text.now) × (is_free taken.now text.now ≡ true)) }
    ensures none { IfNone result (is_free taken.now text.now ≡ false) }
{
    let Ok(name) = Name::new(text) else {
        return None;
    };
    if is_name_taken(name, taken) {
        return None;
    }
    Some(name)
}

fn is_name_taken(name: Name, taken: &[Name]) -> bool
    ensures { result ≡ is_name_taken taken.now name }
{
    taken.iter().any(|other| *other == name)
}
