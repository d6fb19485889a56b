/// The SHA-256 of the token by which a user signs in.
#[derive(Clone, Copy)]
pub struct Digest {
    pub bytes: [u8; 32],
}
