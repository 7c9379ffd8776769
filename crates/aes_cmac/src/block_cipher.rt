ghost use Rattle.std.specs.Prelude.{◌≡◌, ℕ, List};
ghost use Rattle.aes_cmac.specs.Aes.{encrypted, decrypted};

/// The cipher under one AES-128 key: the key's round keys, or what stands for them. Blocks are of
/// 16 bytes in the order of FIPS 197, 3.3.
pub trait BlockCipher {
    ghost key: { Self → List ℕ };

    /// The encryption of `block` (FIPS 197, 5.1, Cipher).
    fn encrypt_block(&self, block: [u8; 16]) -> [u8; 16]
        ensures { result ≡ encrypted (key self.now) block };

    /// The decryption of `block` (FIPS 197, 5.3, InvCipher).
    fn decrypt_block(&self, block: [u8; 16]) -> [u8; 16]
        ensures { result ≡ decrypted (key self.now) block };
}
