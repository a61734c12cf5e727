use crate::{EmptySalt, Keyed384, hkdf512, hmac384, hmac512};
use sha2::{Digest, Sha512};
use std::process::Abort;

const DIGITS: [u8; 16] = *b"0123456789abcdef";

// Whether the text is the bytes in hexadecimal.
fn spells(text: &[u8], bytes: &[u8]) -> bool {
    if text.len() / 2 != bytes.len() {
        return false;
    }
    for i in 0..bytes.len() {
        let byte = bytes[i] as usize;
        if text[2 * i] != DIGITS[byte / 16] || text[2 * i + 1] != DIGITS[byte % 16] {
            return false;
        }
    }
    true
}

// 0, 1, .. 255.
fn counting() -> [u8; 256] {
    let mut bytes = [0u8; 256];
    for i in 0..256 {
        bytes[i] = i as u8;
    }
    bytes
}

// RFC 4231, test cases 1 to 4, 6 and 7.
#[test]
fn rfc_4231(rt: HostRuntime) {
    let count = counting();
    let large_key = b"Test Using Larger Than Block-Size Key - Hash Key First";
    let large_both =
        b"This is a test using a larger than block-size key and a larger than block-size data. The key needs to be hashed before being used by the HMAC algorithm.";
    let cases: [(&[u8], &[u8], &[u8], &[u8]); 6] = [
        (
            &[0x0b; 20],
            b"Hi There",
            b"afd03944d84895626b0825f4ab46907f15f9dadbe4101ec682aa034c7cebc59cfaea9ea9076ede7f4af152e8b2fa9cb6",
            b"87aa7cdea5ef619d4ff0b4241a1d6cb02379f4e2ce4ec2787ad0b30545e17cdedaa833b7d6b8a702038b274eaea3f4e4be9d914eeb61f1702e696c203a126854",
        ),
        (
            b"Jefe",
            b"what do ya want for nothing?",
            b"af45d2e376484031617f78d2b58a6b1b9c7ef464f5a01b47e42ec3736322445e8e2240ca5e69e2c78b3239ecfab21649",
            b"164b7a7bfcf819e2e395fbe73b56e0a387bd64222e831fd610270cd7ea2505549758bf75c05a994a6d034f65f8f0e6fdcaeab1a34d4a6b4b636e070a38bce737",
        ),
        (
            &[0xaa; 20],
            &[0xdd; 50],
            b"88062608d3e6ad8a0aa2ace014c8a86f0aa635d947ac9febe83ef4e55966144b2a5ab39dc13814b94e3ab6e101a34f27",
            b"fa73b0089d56a284efb0f0756c890be9b1b5dbdd8ee81a3655f83e33b2279d39bf3e848279a722c806b485a47e67c807b946a337bee8942674278859e13292fb",
        ),
        (
            &count[1..26],
            &[0xcd; 50],
            b"3e8a69b7783c25851933ab6290af6ca77a9981480850009cc5577c6e1f573b4e6801dd23c4a7d679ccf8a386c674cffb",
            b"b0ba465637458c6990e5a8c5f61d4af7e576d97ff94b872de76f8050361ee3dba91ca5c11aa25eb4d679275cc5788063a5f19741120c4f2de2adebeb10a298dd",
        ),
        (
            &[0xaa; 131],
            large_key,
            b"4ece084485813e9088d2c63a041bc5b44f9ef1012a2b588f3cd11f05033ac4c60c2ef6ab4030fe8296248df163f44952",
            b"80b24263c7c1a3ebb71493c1dd7be8b49b46d1f41b4aeec1121b013783f8f3526b56d037e05f2598bd0fd2215d6a1e5295e64f73f63f0aec8b915a985d786598",
        ),
        (
            &[0xaa; 131],
            large_both,
            b"6617178e941f020d351e2f254e8fd32c602420feb0b8fb9adccebb82461e99c5a678cc31e799176d3860e6110c46523e",
            b"e37b6a775dc87dbaa4dfa9f96e5e3ffddebd71f8867289865df5a32d20cdc944b6022cac3c4982b10d5eeb55c3e4de15134676fb6de0446065c97440fa8c6a58",
        ),
    ];
    for (key, text, want384, want512) in cases {
        assert!(rt; spells(want384, hmac384(key, text).as_slice()));
        assert!(rt; spells(want512, hmac512(key, text).as_slice()));
        let (first, rest) = text.split_at(text.len() / 2);
        let mut pieces = Keyed384::new(key);
        pieces.update(first);
        pieces.update(rest);
        assert!(rt; spells(want384, pieces.finish().as_slice()));
    }
}

// Outputs of 65 bytes, of 16,320 (by their SHA-512), and of fewer bytes, which leave the rest of a slice.
fn derives(rt: &impl Abort, ikm: &[u8], salt: &[u8], info: &[u8], want: &[u8], want_most: &[u8]) {
    let mut front = [0u8; 65];
    hkdf512(ikm, salt, info, &mut front);
    assert!(rt; spells(want, &front));
    if salt.is_empty() {
        let mut again = [0u8; 65];
        EmptySalt::new().extract(ikm).expand(info, &mut again);
        assert!(rt; again == front);
    }
    let mut most = [0u8; 16320];
    hkdf512(ikm, salt, info, &mut most);
    let digest = Sha512::digest(&most);
    assert!(rt; spells(want_most, &digest));
    for n in [0, 1, 64] {
        let mut out = [0u8; 65];
        hkdf512(ikm, salt, info, &mut out[..n]);
        assert!(rt; out[..n] == front[..n]);
        assert!(rt; out[n..] == [0u8; 65][n..]);
    }
}

// Expected values from the Python package cryptography. The first two have the inputs of RFC 5869's test cases 1 and 3.
#[test]
fn derived_keys(rt: HostRuntime) {
    let count = counting();
    derives(
        &rt,
        &[0x0b; 22],
        &count[..13],
        &count[0xf0..0xfa],
        b"832390086cda71fb47625bb5ceb168e4c8e26a1a16ed34d9fc7fe92c1481579338da362cb8d9f925d7cbcce0dff7098769cf15959867d571c1715450cb530137be",
        b"81a82cc4d700de62532aec29941cde932ba45f94a593bd3d2e9c0a150b713afdbefcaaa3f972e2c0baa5fa19daba4cec1856e9457c8494a191aa8beaa82abf8e",
    );
    derives(
        &rt,
        &[0x0b; 22],
        b"",
        b"",
        b"f5fa02b18298a72a8c23898a8703472c6eb179dc204c03425c970e3b164bf90fff22d04836d0e2343bacc4e7cb6045faaa698e0e3b3eb91331306def1db8319e8a",
        b"d3b6867f2c2f1874fdb8f73ec2b540d09e6d52d3f9c380a288ad62b544efc809d7ff5365e5ea506f052790444fc5c0bf669789ad98620663c3655a12e6b9a315",
    );
    derives(
        &rt,
        b"",
        &[1; 128],
        b"x",
        b"c56309e2426e18a05873bb6b35a6b7da7e0ee931d2424901083d6f7bf932c2e50997c00a84494dec2a500ebe7abddd99c849054ed2258be05d0020e016c670df18",
        b"b00a8fb7a98d3a3f33c17d4138ae7f2855a7487687fd3cf2396e8e80549314044cc3b48bb49e14150f2f2afc2adc17f66356b014bcdbeb97b180f85bda5e3418",
    );
    derives(
        &rt,
        &count[..150],
        &count[..200],
        &count[50..250],
        b"76216ba8cda13c92177217478e7821cb18c28fbe4e43c90b8e123933aded343e406e4e11063f3e5963daf7027d7cde76ee49544014ddcf919a02fec428d97920b2",
        b"eff10128628e4189945b52a53875bc46f111b5184374607974a50e3be1631d6c2ba6ff7cface3e341ce542fae64ad7382507cedd2326dccfac18970071c897e1",
    );
}
