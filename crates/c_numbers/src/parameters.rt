// What the plain numbers of a call stand for: modulus 0 is native, levels 0 are left open. Any number is taken; the calls judge it.
ghost use Rattle.std.specs.Prelude.{◌≡◌};
ghost use Rattle.primus_reduce.specs.Ring.{modulus_for};
ghost use Rattle.primus_decompose.specs.Answers.{basis_with};
ghost use Rattle.c_numbers.specs.Numbers.{embedding_for, phases_with, decryption_with};
ghost use Rattle.c_numbers.specs.Numbers.{encryption_with, messages_with, switching_with};

use key_switch_parameters::LweKeySwitchingParameters;
use lwe_parameters::{
    LweDecryptionParameters, LweEncryptionParameters, LweParameters, LwePhaseParameters,
};
use primus_decompose::ApproxSignedBasis;
use primus_encoding::{PlaintextEmbedding, RoundedCodec};
use primus_lattice::LweDimension;
use primus_reduce::Modulus;

// Stays: no From: what 0 and another number mean is C's alone; a Rust caller names the embedding.
pub fn embedding_for(centered: u32) -> PlaintextEmbedding
    ensures { result ≡ embedding_for centered }
{
    if centered == 0 {
        return PlaintextEmbedding::Unsigned;
    }
    PlaintextEmbedding::Centered
}

pub fn basis_for(modulus: u32, base_log: u32, levels: u32) -> ApproxSignedBasis
    ensures { result ≡ basis_with (modulus_for modulus) base_log levels }
{
    ApproxSignedBasis::given(Modulus::from(modulus), base_log, levels)
}

pub fn codec_for(modulus: u32, t: u32) -> RoundedCodec
    ensures { (result.plaintext_modulus ≡ t) × (result.ciphertext_modulus ≡ modulus_for modulus) }
{
    RoundedCodec::given(t, Modulus::from(modulus))
}

pub fn phases_for(modulus: u32, n: usize) -> LwePhaseParameters
    ensures { result ≡ phases_with modulus n }
{
    LwePhaseParameters {
        dimension: LweDimension::given(n),
        modulus: Modulus::from(modulus),
    }
}

pub fn decryption_for(modulus: u32, n: usize, plaintext_modulus: u32) -> LweDecryptionParameters
    ensures { result ≡ decryption_with modulus n plaintext_modulus }
{
    LweDecryptionParameters {
        dimension: LweDimension::given(n),
        modulus: Modulus::from(modulus),
        plaintext_modulus,
    }
}

pub fn encryption_for(modulus: u32, n: usize, error_limit: u32) -> LweEncryptionParameters
    ensures { result ≡ encryption_with modulus n error_limit }
{
    LweEncryptionParameters {
        dimension: LweDimension::given(n),
        modulus: Modulus::from(modulus),
        error_limit,
    }
}

pub fn messages_for(
    modulus: u32,
    n: usize,
    plaintext_modulus: u32,
    error_limit: u32,
) -> LweParameters
    ensures { result ≡ messages_with modulus n plaintext_modulus error_limit }
{
    LweParameters {
        dimension: LweDimension::given(n),
        modulus: Modulus::from(modulus),
        plaintext_modulus,
        error_limit,
    }
}

pub fn switching_for(
    modulus: u32,
    base_log: u32,
    levels: u32,
    n: usize,
    m: usize,
) -> LweKeySwitchingParameters
    ensures { result ≡ switching_with modulus base_log levels n m }
{
    LweKeySwitchingParameters::given(Modulus::from(modulus), base_log, levels, n, m)
}
