use ciphers::choice::Cipher;
use hashing::choice::AnyHash;

// What a caller names by numbers: a cipher, a hash and a key.
#[derive(Clone, Copy)]
pub(crate) struct Method {
    pub(crate) cipher: Cipher,
    pub(crate) hash: AnyHash,
    pub(crate) key: [u8; 16],
}
