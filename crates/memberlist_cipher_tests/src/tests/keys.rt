//! How many bytes a key may have.

use memberlist_cipher::is_key;
use std::process::Abort;

#[test]
fn a_key_has_16_24_or_32_bytes(rt: HostRuntime) {
    let zeros = [0; 40];
    for (index, _) in zeros.iter().enumerate() {
        let (bytes, _) = zeros.split_at(index);
        let expected = matches!(index, 16 | 24 | 32);
        assert_eq!(rt; is_key(bytes), expected, "{index}");
    }
}
