//! Secrets that grow, and what is left of them.

use memberlist_keyring::{Secret, overwrite};
use std::alloc::AllocError;
use std::test::Fail;

#[test]
fn a_secret_grows_by_each_length(rt: HostRuntime) -> Result<(), Fail> {
    let mut secret = Secret::new(Vec::new(rt.alloc()));
    for count in 0..40 {
        secret.extend(b"EBceJSwzOkFIT1ZdZGtyeQ==".get(..count % 25).unwrap_or(b""))?;
    }
    let twice = secret.as_bytes().len();
    secret.extend(b"ICcuNTxDSlFYX2ZtdHuCiZCXnqWss7rByM/W3eTr8vk=")?;
    assert_eq!(rt; twice, 405);
    assert!(rt; secret.as_bytes().starts_with(b"EEBEBcEBce"));
    assert!(rt; secret.as_bytes().ends_with(b"/W3eTr8vk="));
    Ok(())
}

#[test]
fn what_is_overwritten_is_zeros(rt: HostRuntime) -> Result<(), AllocError> {
    let mut bytes = vec![in rt.alloc(); 7u8; 5]?;
    overwrite(&mut bytes[1..4]);
    assert_eq!(rt; bytes.as_slice(), [7, 0, 0, 0, 7].as_slice());
    Ok(())
}
