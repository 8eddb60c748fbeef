// What enciphers and deciphers sectors: a block function under its key, and a hash. References to the two serve as well.
#[derive(Clone, Copy, Debug, Drop)]
pub struct SectorCipher<F, H> {
    pub function: F,
    pub hash: H,
}
