ghost use Rattle.std.specs.Prelude.{◌≡◌, ◌∷◌, ◌++◌, [], List, ℕ, IfOk, string_bytes};
ghost use Rattle.std.specs.Fmt.{decimal};
ghost use Rattle.std.specs.List.{concat};
ghost use Rattle.text_writer.specs.Markup.{escaped};
ghost use Rattle.text_writer.specs.Hundredths.{hundredths_text};
ghost use Rattle.text_writer.specs.Written.{HasWritten};

use crate::markup::escaped;
use std::alloc::{AllocError, Global};

/// The parts of a text so far, one after another, unless memory for one of them was refused.
#[derive(Drop)]
pub struct TextWriter {
    alloc: Global,
    written: Result<Vec<u8>, AllocError>,
}

impl TextWriter {
    pub fn new(alloc: Global) -> TextWriter
        ensures { HasWritten result [] }
    {
        TextWriter {
            alloc,
            written: Ok(Vec::new(alloc)),
        }
    }

    /// Adds these bytes.
    pub fn bytes(self, bytes: &[u8]) -> TextWriter
        ensures { (parts : List (List ℕ)) → HasWritten self parts → HasWritten result (parts ++ bytes.now ∷ []) }
    {
        TextWriter {
            alloc: self.alloc,
            written: with_bytes(self.written, bytes),
        }
    }

    /// Adds a text.
    pub fn text(self, text: &str) -> TextWriter
        ensures { (parts : List (List ℕ)) → HasWritten self parts → HasWritten result (parts ++ text.now ∷ []) }
    {
        self.bytes(text.as_bytes())
    }

    /// Adds what was written elsewhere.
    pub fn part(self, part: Result<Vec<u8>, AllocError>) -> TextWriter
        ensures { (parts : List (List ℕ)) (written : List ℕ) → HasWritten self parts →
            IfOk part (λ bytes. bytes.items ≡ written) → HasWritten result (parts ++ written ∷ []) }
    {
        match part {
            Ok(bytes) => self.bytes(&bytes),
            Err(refused) => TextWriter {
                alloc: self.alloc,
                written: Err(refused),
            },
        }
    }

    /// Adds a text that was made elsewhere.
    pub fn string(self, made: Result<String, AllocError>) -> TextWriter
        ensures { (parts : List (List ℕ)) (written : List ℕ) → HasWritten self parts →
            IfOk made (λ text. string_bytes text ≡ written) → HasWritten result (parts ++ written ∷ []) }
    {
        self.part(bytes_of(made))
    }

    /// Adds a number in decimal digits.
    pub fn number(self, number: u64) -> TextWriter
        ensures { (parts : List (List ℕ)) → HasWritten self parts → HasWritten result (parts ++ decimal number ∷ []) }
    {
        let digits = number.to_string(self.alloc);
        self.string(digits)
    }

    /// Adds a text from people, as HTML and XML have it between tags and in attributes.
    pub fn escaped(self, text: &[u8]) -> TextWriter
        ensures { (parts : List (List ℕ)) → HasWritten self parts → HasWritten result (parts ++ escaped text.now ∷ []) }
    {
        let part = escaped(self.alloc, text);
        self.part(part)
    }

    /// The text.
    pub fn finish(self) -> Result<Vec<u8>, AllocError>
        ensures { (parts : List (List ℕ)) → HasWritten self parts → IfOk result (λ text. text.items ≡ concat parts) }
    {
        self.written
    }
}

fn with_bytes(written: Result<Vec<u8>, AllocError>, bytes: &[u8]) -> Result<Vec<u8>, AllocError>
    ensures { (parts : List (List ℕ)) → IfOk written (λ text. text.items ≡ concat parts) →
        IfOk result (λ text. text.items ≡ concat (parts ++ bytes.now ∷ [])) }
{
    let mut text = written?;
    text.extend_from_slice(bytes)?;
    Ok(text)
}

/// A number of hundredths, with a point and two digits behind it.
pub fn hundredths_text(alloc: Global, number: u128) -> Result<Vec<u8>, AllocError>
    ensures { IfOk result (λ bytes. bytes.items ≡ hundredths_text number) }
{
    let whole = number / 100;
    let tenths = number % 100 / 10;
    let rest = number % 10;
    TextWriter::new(alloc)
        .string(whole.to_string(alloc))
        .text(".")
        .string(tenths.to_string(alloc))
        .string(rest.to_string(alloc))
        .finish()
}

/// The bytes of a text that was made.
pub fn bytes_of(made: Result<String, AllocError>) -> Result<Vec<u8>, AllocError>
    ensures { (written : List ℕ) → IfOk made (λ text. string_bytes text ≡ written) →
        IfOk result (λ bytes. bytes.items ≡ written) }
{
    match made {
        Ok(text) => Ok(text.into_bytes()),
        Err(refused) => Err(refused),
    }
}
