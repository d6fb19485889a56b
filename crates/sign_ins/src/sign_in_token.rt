ghost use Rattle.std.specs.Prelude.{◌≡◌, string_bytes};
ghost use Rattle.sha2.specs.Sha256.{sha256};

use user_names::Digest;

/// What somebody signs in by beside a name, and its digest.
#[derive(Drop)]
pub struct SignInToken {
    /// 20 letters, in groups of four with dashes between them.
    pub text: String,
    pub digest: Digest,
    ghost digest_of_text: { digest.bytes ≡ sha256 (string_bytes text) },
}

impl SignInToken {
    /// How many letters a token has: each stands for five bits.
    pub const LETTERS: usize = 20;

    /// The digest of the text.
    pub fn digest(&self) -> Digest
        ensures { result.bytes ≡ sha256 (string_bytes self.now.text) }
    {
        self.digest
    }
}
