//! Packets and streams, encrypted under the first key.

ghost use Rattle.std.specs.Prelude.{◌≡◌, ◌≢◌, [], IfSome, OnSome, MatchOption, IfOk, IfErr};
ghost use Rattle.memberlist_cipher.specs.Encryption.{encrypted, encrypted_stream};
ghost use Rattle.memberlist_cipher.specs.Refusal.{EncryptCause};
ghost use Rattle.memberlist_keyring.specs.Opening.{OpensFirst, OpensStreamFirst, OpensReplyFirst};
ghost use Rattle.memberlist_keyring.specs.Sending.{MaySend, MaySendStream, SendsFirst};

use crate::Keyring;
use crate::label::behind_label;
use memberlist_cipher::{CipherFault, MAX_LABEL_LEN};
use std::alloc::Global;

impl Keyring {
    /// A packet with this message, encrypted under the first key, which memberlist calls the
    /// primary one; `None` if there is no key. The label is before it, and is authenticated with
    /// it; an empty label is not written. [`Keyring::open`] returns the message.
    ///
    /// Never use a nonce twice under one key, for packets or streams. memberlist draws each at
    /// random.
    ///
    /// # Errors
    ///
    /// `TooLong` if the label has more than 255 bytes, or the message more than 2^36 - 32; and else
    /// `Memory`, if out of memory.
    ///
    /// Source: memberlist's net.go, label.go, keyring.go and security.go.
    pub fn encrypt(
        &self,
        alloc: Global,
        nonce: &[u8; 12],
        label: &[u8],
        message: &[u8],
    ) -> Result<Option<Vec<u8>>, CipherFault>
        ensures key { IfOk result (λ sent. MatchOption sent (self.now ≡ [])
            (λ _. self.now ≢ [])) }
        ensures sends { IfOk result (λ sent. IfSome sent (λ bytes.
            SendsFirst (λ key. encrypted key nonce.now label.now message.now)
            self.now label.now bytes.items)) }
        ensures opens { IfOk result (λ sent. IfSome sent (λ bytes.
            OpensFirst self.now bytes.items message.now)) }
        ensures within { IfOk result (λ sent. OnSome sent (MaySend label.now message.now)) }
        ensures refuses { IfErr result (EncryptCause (MaySend label.now message.now)) }
    {
        let Some(key) = self.keys.first() else {
            return Ok(None);
        };
        if label.len() > MAX_LABEL_LEN {
            return Err(CipherFault::TooLong);
        }
        let bytes = key.encrypt(alloc, nonce, label, message)?;
        let sent = behind_label(alloc, label, bytes)?;
        Ok(Some(sent))
    }

    /// A stream with this message, encrypted under the first key; `None` if there is no key. The
    /// label is before it, as before a packet. [`Keyring::open_stream`] returns the message.
    ///
    /// Never use a nonce twice under one key, for packets or streams.
    ///
    /// # Errors
    ///
    /// `TooLong` if the label has more than 255 bytes, or the encrypted message would have more
    /// than 268,435,456; and else `Memory`, if out of memory.
    ///
    /// Source: memberlist's net.go, label.go, keyring.go and security.go; the limit is own.
    pub fn encrypt_stream(
        &self,
        alloc: Global,
        nonce: &[u8; 12],
        label: &[u8],
        message: &[u8],
    ) -> Result<Option<Vec<u8>>, CipherFault>
        ensures key { IfOk result (λ sent. MatchOption sent (self.now ≡ [])
            (λ _. self.now ≢ [])) }
        ensures sends { IfOk result (λ sent. IfSome sent (λ bytes.
            SendsFirst (λ key. encrypted_stream key nonce.now label.now message.now)
            self.now label.now bytes.items)) }
        ensures opens { IfOk result (λ sent. IfSome sent (λ bytes.
            OpensStreamFirst self.now bytes.items message.now)) }
        ensures within { IfOk result (λ sent. OnSome sent (MaySendStream label.now message.now)) }
        ensures refuses { IfErr result (EncryptCause (MaySendStream label.now message.now)) }
    {
        let Some(bytes) = self.encrypt_reply(alloc, nonce, label, message)? else {
            return Ok(None);
        };
        let sent = behind_label(alloc, label, bytes)?;
        Ok(Some(sent))
    }

    /// The reply to a stream: a stream with this message, encrypted under the first key; `None` if
    /// there is no key. In memberlist only the side that opens a connection writes the label, but
    /// the side that replies authenticates it too. So there is no label before the reply, and
    /// [`Keyring::open_stream`] returns the message once there is one.
    ///
    /// Never use a nonce twice under one key, for packets or streams.
    ///
    /// # Errors
    ///
    /// Those of [`Keyring::encrypt_stream`].
    ///
    /// Source: `sendLocalState` and `encryptLocalState` in memberlist's net.go; the limit is own.
    pub fn encrypt_reply(
        &self,
        alloc: Global,
        nonce: &[u8; 12],
        label: &[u8],
        message: &[u8],
    ) -> Result<Option<Vec<u8>>, CipherFault>
        ensures key { IfOk result (λ sent. MatchOption sent (self.now ≡ [])
            (λ _. self.now ≢ [])) }
        ensures sends { IfOk result (λ sent. IfSome sent (λ bytes.
            SendsFirst (λ key. encrypted_stream key nonce.now label.now message.now)
            self.now [] bytes.items)) }
        ensures opens { IfOk result (λ sent. IfSome sent (λ bytes.
            OpensReplyFirst self.now label.now bytes.items message.now)) }
        ensures within { IfOk result (λ sent. OnSome sent (MaySendStream label.now message.now)) }
        ensures refuses { IfErr result (EncryptCause (MaySendStream label.now message.now)) }
    {
        let Some(key) = self.keys.first() else {
            return Ok(None);
        };
        if label.len() > MAX_LABEL_LEN {
            return Err(CipherFault::TooLong);
        }
        let bytes = key.encrypt_stream(alloc, nonce, label, message)?;
        Ok(Some(bytes))
    }
}
