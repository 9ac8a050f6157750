// The digest of a car: SHA-256 over a fixed byte string, the platform number and the fingerprint (can_access.rs, car_digest).
#![tactic(auto)]

ghost use Rattle.std.specs.Prelude.{◌++◌, ◌≡◌};
ghost use Rattle.car_digest.specs.CarDigest.{car_digest, domain, little4};

// The first 30 bytes of a car's message: the fixed string and the platform number.
#[tactic(auto, unfolding(crate::specs::CarDigest::domain))]
fn opening(platform: u32) -> [u8; 30]
    ensures { result ≡ domain ++ little4 platform }
{
    let mut b = [0u8; 30];
    b[..26].copy_from_slice(b"opencar/can-rw-approval/v1");
    b[26..].copy_from_slice(&platform.to_le_bytes());
    b
}

// The digest of a car: SHA-256 over a fixed string, the platform number and the fingerprint. A fingerprint above 4,096
// bytes has none. The first 30 bytes are laid down once, before the loop over the fingerprint, which is hashed where it
// lies.
#[tactic(auto, using(crate::proofs::Message::in_pieces), unfolding(crate::specs::CarDigest::car_digest))]
pub fn car_digest(platform: u32, fingerprint: &[u8]) -> Option<[u8; 32]>
    ensures { result ≡ car_digest platform fingerprint.now }
{
    if fingerprint.len() > 4096 {
        return None;
    }
    Some(sha256::sha256_of_two(&opening(platform), fingerprint))
}
