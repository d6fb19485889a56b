//! Texts in a page.

ghost use Rattle.std.specs.Prelude.{◌≡◌, ◌++◌, IfOk, OnOk, chars, string_bytes};
ghost use Rattle.preparing.specs.Escaping.{escaped_sign, escaped_signs};

use std::alloc::{AllocError, Global};

/// A text as it stands in a page, where it ends no element and no attribute in double quotes.
pub(crate) fn escaped(alloc: Global, text: &str) -> Result<String, AllocError>
    ensures { IfOk result (λ page. string_bytes page ≡ escaped_signs (chars text.now)) }
{
    let mut page = String::new(alloc);
    for sign in text.chars() {
        push_escaped(&mut page, sign)?;
    }
    Ok(page)
}

fn push_escaped(page: &mut String, sign: char) -> Result<(), AllocError>
    ensures { OnOk result (string_bytes page.new ≡ string_bytes page.old ++ escaped_sign sign) }
{
    match sign {
        '&' => page.push_str("&amp;"),
        '<' => page.push_str("&lt;"),
        '>' => page.push_str("&gt;"),
        '"' => page.push_str("&quot;"),
        _ => page.push(sign),
    }
}
