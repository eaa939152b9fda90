//! Laws of the definitions, independent of any code. Each is the contract of a function that does
//! nothing.

ghost use Rattle.std.specs.Prelude.{◌≡◌, List, ℕ, length};
ghost use Rattle.memberlist_cipher.specs.Encryption.{IsKey, MayEncrypt, MayEncryptStream, encrypted, encrypted_stream};
ghost use Rattle.memberlist_cipher.specs.Encryption.{HoldsOnly, Encryption, StreamEncryption};
ghost use Rattle.memberlist_cipher.specs.Label.{IsLabelled, IsLabelText};

/// For one key and the same associated bytes, bytes are the encryption of at most one message.
pub fn one_message()
    ensures packet { (key aad bytes x y : List ℕ) → Encryption key aad bytes x
        → Encryption key aad bytes y → x ≡ y }
    ensures stream { (key label bytes x y : List ℕ) → StreamEncryption key label bytes x
        → StreamEncryption key label bytes y → x ≡ y }
{}

/// What is encrypted is an encryption of its message, and of no other.
pub fn encrypted_is_opened()
    ensures packet { (key nonce aad message : List ℕ) → IsKey key → length nonce ≡ 12
        → MayEncrypt aad message
        → HoldsOnly (Encryption key aad (encrypted key nonce aad message)) message }
    ensures stream { (key nonce label message : List ℕ) → IsKey key → length nonce ≡ 12
        → MayEncryptStream label message
        → HoldsOnly (StreamEncryption key label (encrypted_stream key nonce label message))
        message }
{}

/// Bytes have one label, or none; and a label that was written is read back.
pub fn one_label()
    ensures one { (bytes label rest other behind : List ℕ) → IsLabelled bytes label rest
        → IsLabelled bytes other behind → (label ≡ other) × (rest ≡ behind) }
    ensures written { (bytes label rest other behind : List ℕ) → IsLabelText bytes label rest
        → IsLabelled bytes other behind → (label ≡ other) × (rest ≡ behind) }
{}
