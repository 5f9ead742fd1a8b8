// Phases and decryption, for C. The promises are those of primus_lwe, of the parameters that the numbers give.
ghost use Rattle.scheme.specs.Lwe.{Words, Signed};
ghost use Rattle.primus_lwe.specs.Answers.{TakesPhase, Decrypts};
ghost use Rattle.primus_lwe_batch.specs.Answers.{TakesPhases, DecryptsBatch};
ghost use Rattle.primus_lwe_packed.specs.Answers.{TakesPackedPhases, DecryptsPacked};
ghost use Rattle.c_numbers.specs.Numbers.{phases_with, decryption_with};
ghost use Rattle.c_answers.specs.Service.{Tells, word_number};

use lwe_secret_key::LweSecretKeyRef;

// b − ⟨a, s⟩ modulo q, or 2^32 plus the first of 2, 6, 9, 10, 14 that applies.
#[unsafe(no_mangle)]
pub extern "C" fn saigagalena_decrypt_phase(
    modulus: u32,
    n: usize,
    secret: &[u32],
    ciphertext: &[u32],
) -> u64
    ensures { Tells word_number (TakesPhase (phases_with modulus n) (Words secret.now)
        ciphertext.now) result }
{
    let params = c_numbers::phases_for(modulus, n);
    c_numbers::word_number(primus_lwe::decrypt_phase(
        params,
        LweSecretKeyRef::Encoded(secret),
        ciphertext,
    ))
}

// saigagalena_decrypt_phase under a signed key.
#[unsafe(no_mangle)]
pub extern "C" fn saigagalena_decrypt_phase_signed(
    modulus: u32,
    n: usize,
    secret: &[i32],
    ciphertext: &[u32],
) -> u64
    ensures { Tells word_number (TakesPhase (phases_with modulus n) (Signed secret.now)
        ciphertext.now) result }
{
    let params = c_numbers::phases_for(modulus, n);
    c_numbers::word_number(primus_lwe::decrypt_phase(
        params,
        LweSecretKeyRef::Signed(secret),
        ciphertext,
    ))
}

// decode of the phase, or 2^32 plus the first of 2, 6, 7, 8, 9, 10, 14 that applies.
#[unsafe(no_mangle)]
pub extern "C" fn saigagalena_decrypt_message(
    modulus: u32,
    n: usize,
    t: u32,
    secret: &[u32],
    ciphertext: &[u32],
) -> u64
    ensures { Tells word_number (Decrypts (decryption_with modulus n t) (Words secret.now)
        ciphertext.now) result }
{
    let params = c_numbers::decryption_for(modulus, n, t);
    let key = LweSecretKeyRef::Encoded(secret);
    c_numbers::word_number(primus_lwe::decrypt_message(params, key, ciphertext))
}

// saigagalena_decrypt_message under a signed key.
#[unsafe(no_mangle)]
pub extern "C" fn saigagalena_decrypt_message_signed(
    modulus: u32,
    n: usize,
    t: u32,
    secret: &[i32],
    ciphertext: &[u32],
) -> u64
    ensures { Tells word_number (Decrypts (decryption_with modulus n t) (Signed secret.now)
        ciphertext.now) result }
{
    let params = c_numbers::decryption_for(modulus, n, t);
    let key = LweSecretKeyRef::Signed(secret);
    c_numbers::word_number(primus_lwe::decrypt_message(params, key, ciphertext))
}

// The phase of each ciphertext. Refuses by 2, 6, 9, 10, 11, 14.
#[unsafe(no_mangle)]
pub extern "C" fn saigagalena_decrypt_phase_batch(
    modulus: u32,
    n: usize,
    secret: &[u32],
    input: &[u32],
    out: &mut [u32],
) -> u32
    ensures { TakesPhases (phases_with modulus n) (Words secret.now)
        input.now out.old result out.new }
{
    let params = c_numbers::phases_for(modulus, n);
    c_numbers::code(primus_lwe_batch::decrypt_phase_batch_to(params, secret, input, out))
}

// decode of the phase of each ciphertext. Refuses by 2, 6, 7, 8, 9, 10, 11, 14.
#[unsafe(no_mangle)]
pub extern "C" fn saigagalena_decrypt_message_batch(
    modulus: u32,
    n: usize,
    t: u32,
    secret: &[u32],
    input: &[u32],
    out: &mut [u32],
) -> u32
    ensures { DecryptsBatch (decryption_with modulus n t) (Words secret.now)
        input.now out.old result out.new }
{
    let params = c_numbers::decryption_for(modulus, n, t);
    c_numbers::code(primus_lwe_batch::decrypt_message_batch_to(params, secret, input, out))
}

// The phase of each body. Refuses by 2, 6, 9, 10, 11, 14.
#[unsafe(no_mangle)]
pub extern "C" fn saigagalena_decrypt_phase_packed(
    modulus: u32,
    n: usize,
    secret: &[u32],
    input: &[u32],
    out: &mut [u32],
) -> u32
    ensures { TakesPackedPhases (phases_with modulus n) secret.now
        input.now out.old result out.new }
{
    let params = c_numbers::phases_for(modulus, n);
    c_numbers::code(primus_lwe_packed::decrypt_phase_packed(params, secret, input, out))
}

// decode of the phase of each body. Refuses by 2, 6, 7, 8, 9, 10, 11, 14.
#[unsafe(no_mangle)]
pub extern "C" fn saigagalena_decrypt_message_packed(
    modulus: u32,
    n: usize,
    t: u32,
    secret: &[u32],
    input: &[u32],
    out: &mut [u32],
) -> u32
    ensures { DecryptsPacked (decryption_with modulus n t) secret.now
        input.now out.old result out.new }
{
    let params = c_numbers::decryption_for(modulus, n, t);
    c_numbers::code(primus_lwe_packed::decrypt_message_packed(params, secret, input, out))
}
