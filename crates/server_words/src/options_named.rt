//! Which options stand among the words, before `clap` reads them.

ghost use Rattle.std.specs.Prelude.{◌≡◌, map, string_bytes};
ghost use Rattle.std.specs.List.{list_any};
ghost use Rattle.server_words.specs.CommandLine.{is_option, needs_files};

/// Whether the files of a session have to be there: unless the words name a journal and none of them. Where one is named
/// and the other isn't, both have to be.
pub(crate) fn need_files(words: &[String]) -> bool
    ensures { result ≡ needs_files (map string_bytes words.now) }
{
    match words.split_first() {
        Some((_name, options)) => {
            !is_named(options, "--journal", "--journal=")
                || is_named(options, "--session", "--session=")
                || is_named(options, "--deals", "--deals=")
        }
        None => true,
    }
}

// Whether one of the words is an option, or the option with its value, which begins so.
fn is_named(words: &[String], alone: &str, beginning: &str) -> bool
    ensures { result ≡ list_any (is_option alone.now beginning.now) (map string_bytes words.now) }
{
    words
        .iter()
        .any(|word| is_option(word.as_str(), alone, beginning))
}

// Whether a word is this one, or begins with that one.
fn is_option(word: &str, alone: &str, beginning: &str) -> bool
    ensures { result ≡ is_option alone.now beginning.now word.now }
{
    word == alone || word.starts_with(beginning)
}
